// The ready-made configurations, with the arguments of the MLI text. All but the pads are made for a rank, and refuse a wrong
// one; all have fill 0, which a setting changes. No call here asks anything of its caller.
#![tactic(auto)]

ghost use Rattle.std.specs.Prelude.{◌≡◌, ◌≤◌, get_or};
ghost use Rattle.plane.specs.Arrays.{firsts_or};
ghost use Rattle.plane.specs.Settings.{with_pre, with_post, with_dst_stride};
ghost use Rattle.ready_made.specs.ReadyMade.{defaults, cut_to, made_for, copy_of, slice_of, concatenate_of, subsample_of, permute_of, pad_chw_of, pad_hwc_of, all_of};

use plane::{Config, rank_is_bad};

// A configuration made for a rank, or 1 and zeros, which are promised too: so it is no Result (DECISIONS 105).
#[derive(Clone, Copy)]
pub struct Made {
    pub status: u8,
    pub config: Config,
}

fn defaults() -> Config
    ensures { result ≡ defaults }
{
    Config::zero()
        .with_step([1, 1, 1, 1])
        .with_perm([0, 1, 2, 3])
}

// The entries below the rank, and zero at and past it.
fn cut<T: Copy>(n: u8, zero: T, a: [T; 4]) -> [T; 4]
    requires { n ≤ 4 }
    ensures { result ≡ firsts_or zero n (λ d. get_or a d zero) }
{
    let n = n as usize;
    let mut out = [zero; 4];
    out[..n].copy_from_slice(&a[..n]);
    out
}

fn cut_to(n: u8, c: Config) -> Config
    requires { n ≤ 4 }
    ensures { result ≡ cut_to n c }
{
    Config {
        offset: cut(n, 0, c.offset),
        size: cut(n, 0, c.size),
        step: cut(n, 0, c.step),
        dst_offset: cut(n, 0, c.dst_offset),
        dst_stride: cut(n, 0, c.dst_stride),
        perm: cut(n, 0, c.perm),
        pre: cut(n, 0, c.pre),
        post: cut(n, 0, c.post),
        fill: c.fill,
    }
}

fn made_for(rank: u8, c: Config) -> Made
    ensures { result ≡ made_for rank c }
{
    if rank_is_bad(rank) {
        return Made {
            status: 1,
            config: Config::zero(),
        };
    }
    Made {
        status: 0,
        config: cut_to(rank, c),
    }
}

// The whole plane as it is.
pub fn copy(rank: u8) -> Made
    ensures { result ≡ copy_of rank }
{
    made_for(rank, defaults())
}

// A part of the plane.
pub fn slice(rank: u8, offset: [u32; 4], size: [u32; 4], dst_stride: [u32; 4]) -> Made
    ensures { result ≡ slice_of rank offset size dst_stride }
{
    let c = defaults().with_offset(offset).with_size(size);
    made_for(rank, c.with_dst_stride(dst_stride))
}

// The plane set into a larger one.
pub fn concatenate(rank: u8, dst_offset: [u32; 4], dst_stride: [u32; 4]) -> Made
    ensures { result ≡ concatenate_of rank dst_offset dst_stride }
{
    let c = defaults().with_dst_offset(dst_offset);
    made_for(rank, c.with_dst_stride(dst_stride))
}

// One element in each step.
pub fn subsample(rank: u8, step: [u32; 4], dst_stride: [u32; 4]) -> Made
    ensures { result ≡ subsample_of rank step dst_stride }
{
    let c = defaults().with_step(step);
    made_for(rank, c.with_dst_stride(dst_stride))
}

// The dimensions in another order.
pub fn permute(rank: u8, perm: [u8; 4]) -> Made
    ensures { result ≡ permute_of rank perm }
{
    made_for(rank, defaults().with_perm(perm))
}

// Padding around H and W of a plane of rank 3, in either order of its dimensions.
fn padded(pre: [u8; 4], post: [u8; 4], dst_stride: [u32; 4]) -> Config
    ensures { result ≡ cut_to 3 (with_dst_stride (with_post (with_pre defaults pre) post) dst_stride) }
{
    let c = defaults().with_pre(pre).with_post(post);
    cut_to(3, c.with_dst_stride(dst_stride))
}

// Padding around H and W of a plane in CHW order, of rank 3.
pub fn pad_chw(left: u8, right: u8, top: u8, bottom: u8, dst_stride: [u32; 4]) -> Config
    ensures { result ≡ pad_chw_of left right top bottom dst_stride }
{
    padded([0, top, left, 0], [0, bottom, right, 0], dst_stride)
}

// Padding around H and W of a plane in HWC order, of rank 3.
pub fn pad_hwc(left: u8, right: u8, top: u8, bottom: u8, dst_stride: [u32; 4]) -> Config
    ensures { result ≡ pad_hwc_of left right top bottom dst_stride }
{
    padded([top, left, 0, 0], [bottom, right, 0, 0], dst_stride)
}

// Every array as given.
pub fn all(
    rank: u8,
    offset: [u32; 4],
    size: [u32; 4],
    step: [u32; 4],
    dst_offset: [u32; 4],
    dst_stride: [u32; 4],
    perm: [u8; 4],
    pre: [u8; 4],
    post: [u8; 4],
) -> Made
    ensures { result ≡ all_of rank offset size step dst_offset dst_stride perm pre post }
{
    made_for(
        rank,
        Config {
            offset,
            size,
            step,
            dst_offset,
            dst_stride,
            perm,
            pre,
            post,
            fill: 0,
        },
    )
}
