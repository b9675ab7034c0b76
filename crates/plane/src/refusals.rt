// The rules that name the lowest dimension at fault, a function each. Entries at or past the rank are not read.
ghost use Rattle.std.specs.Prelude.{◌≡◌, ℕ, ◌+◌, ◌≤◌, ◌<◌, Bool, eqb, IfOk, IfErr, true, false};
ghost use Rattle.plane.specs.Arrays.{at, some};
ghost use Rattle.faults.specs.Faults.{fault, lowest, outcome};
ghost use Rattle.plane.specs.Planes.{bad_rank, bad_shape};
ghost use Rattle.plane.specs.Moves.{bad_perm_at, bad_offset, bad_size, bad_step, bad_dst_offset_at};
ghost use Rattle.plane.specs.Private.{IsExtent, Tells};

use crate::Fault;
use crate::strides::times;

// 1: whether a rank is refused. A bool and no Result: so it is promised to callers outside.
pub fn rank_is_bad(n: u8) -> bool
    ensures { result ≡ bad_rank n }
{
    (n < 1) | (4 < n)
}

// A rank of 4 at most: each dimension below it has an entry. A function that takes the record asks for `t.rank ≤ 4` and makes it itself: of
// one handed down it would have to ask that it is the record's.
#[derive(Clone, Copy)]
pub(crate) struct Rank {
    pub(crate) n: u8,
    ghost small: { n ≤ 4 },
}

impl Rank {
    // 1: the rank, unless it is refused.
    pub(crate) fn new(n: u8) -> Result<Rank, Fault>
        ensures made { IfOk result (λ r. (bad_rank n ≡ false) × (r.n ≡ n)) }
        ensures refused { IfErr result (λ e. (bad_rank n ≡ true) × (e ≡ fault 1 0)) }
    {
        if rank_is_bad(n) {
            return Err(Fault { status: 1, dim: 0 });
        }
        Ok(Rank { n })
    }
}

// Refuses with that number the lowest of n dimensions that is bad. `bad` stands for whatever the test tells.
pub(crate) fn check_each<F: Fn(usize) -> bool>(status: u8, n: u8, is_bad: F) -> Result<(), Fault>
    requires positive { 0 < status }
    requires callable { (d : ℕ) → d < n → F.pre is_bad d }
    ensures { (bad : ℕ → Bool) → Tells (F.post is_bad) n bad → result ≡ outcome (lowest status n bad) tt }
{
    let found = (0..n).find(
        |d: &u8|
            requires { F.pre is_bad d.now }
        { is_bad(*d as usize) },
    );
    match found {
        Some(dim) => Err(Fault { status, dim }),
        None => Ok(()),
    }
}

// 3
pub(crate) fn check_shape(rank: Rank, shape: [u32; 4]) -> Result<(), Fault>
    ensures { result ≡ outcome (lowest 3 rank.n (λ d. bad_shape (at shape d))) tt }
{
    check_each(3, rank.n, |d| (shape[d] < 1) | (65535 < shape[d]))
}

// Whether entry i equals an earlier one.
fn is_repeated(perm: [u8; 4], i: usize) -> bool
    requires { i < 4 }
    ensures { result ≡ some i (λ j. eqb (at perm j) (at perm i)) }
{
    perm[..i].contains(&perm[i])
}

// 6
pub(crate) fn check_perm(rank: Rank, perm: [u8; 4]) -> Result<(), Fault>
    ensures { result ≡ outcome (lowest 6 rank.n (bad_perm_at rank.n (at perm))) tt }
{
    check_each(6, rank.n, |i| (rank.n <= perm[i]) | is_repeated(perm, i))
}

// 7
pub(crate) fn check_offset(rank: Rank, shape: [u32; 4], offset: [u32; 4]) -> Result<(), Fault>
    ensures { result ≡ outcome (lowest 7 rank.n (λ d. bad_offset (at shape d) (at offset d))) tt }
{
    check_each(7, rank.n, |d| shape[d] <= offset[d])
}

// Whether a part of this size at this offset runs past the shape. The sum needs more than 32 bits.
pub(crate) fn size_is_bad(shape: u32, offset: u32, size: u32) -> bool
    ensures { result ≡ bad_size shape offset size }
{
    (shape as u64) < (size as u64) + (offset as u64)
}

// 8
pub(crate) fn check_size(
    rank: Rank,
    shape: [u32; 4],
    offset: [u32; 4],
    size: [u32; 4],
) -> Result<(), Fault>
    ensures { result ≡ outcome (lowest 8 rank.n (λ d. bad_size (at shape d) (at offset d) (at size d))) tt }
{
    check_each(8, rank.n, |d| size_is_bad(shape[d], offset[d], size[d]))
}

// 9
pub(crate) fn check_step(rank: Rank, step: [u32; 4]) -> Result<(), Fault>
    ensures { result ≡ outcome (lowest 9 rank.n (λ d. bad_step (at step d))) tt }
{
    check_each(9, rank.n, |d| (step[d] == 0) | (65535 < step[d]))
}

// Whether the offset of dimension k is bad. No stride stands before the first dimension: besides 65,535 the room alone bounds it.
// The product needs more than 32 bits.
fn dst_offset_is_bad(k: usize, extent: [u32; 4], stride: [u32; 4], offset: [u32; 4]) -> bool
    requires { (k < 4) × IsExtent extent k }
    ensures { result ≡ bad_dst_offset_at (at extent) (at stride) (at offset) k }
{
    if 65535 < offset[k] {
        return true;
    }
    if k == 0 {
        return false;
    }
    (stride[k - 1] as u64) < times(offset[k] + extent[k], stride[k])
}

// 12: strides are the resolved ones.
pub(crate) fn check_dst_offset(
    rank: Rank,
    extent: [u32; 4],
    stride: [u32; 4],
    offset: [u32; 4],
) -> Result<(), Fault>
    requires { (i : ℕ) → i < rank.n → IsExtent extent i }
    ensures { result ≡ outcome (lowest 12 rank.n (bad_dst_offset_at (at extent) (at stride) (at offset))) tt }
{
    check_each(12, rank.n, |i| dst_offset_is_bad(i, extent, stride, offset))
}
