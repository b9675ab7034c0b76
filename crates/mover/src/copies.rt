// Bytes side by side.
ghost use Rattle.std.specs.Prelude.{◌≡◌, ◌+◌, ◌*◌, ◌^◌, ◌<◌, ◌≤◌, length, take, drop};
ghost use Rattle.plane.specs.Planes.{Sized};
ghost use Rattle.mover.specs.Private.Elements.{source_bytes};
ghost use Rattle.mover.specs.Private.Runs.{Blocked, element_copied};

use crate::arrays::{read, write};
use crate::elements::{Origin, copy, source};

// How many bytes n elements have, by adding.
pub(crate) fn bytes(size: usize, n: usize) -> usize
    requires sized { Sized size }
    requires size_bound { n * size < 2 ^ 64 }
    ensures { result ≡ n * size }
{
    match size {
        1 => n,
        2 => n + n,
        3 => n + n + n,
        _ => n + n + n + n,
    }
}

// The first N bytes and the last N of n bytes: all of them. All are read before one is stored, so it does not matter that some are both.
fn copy_ends<const N: usize>(origin: Origin<'_>, dst: &mut [u8], at: usize, to: usize, n: usize)
    requires ends { (0 < N) × (N ≤ n) × (n ≤ N + N) }
    requires blocked { Blocked origin dst.old at to n }
    ensures { dst.new ≡ element_copied origin.entry dst.old at to n }
{
    let bytes = source(origin, dst);
    let first = read::<N>(bytes, at);
    let last = read::<N>(bytes, at + (n - N));
    write(first, dst, to);
    write(last, dst, to + (n - N));
}

// As many bytes as a few of a processor's registers hold, in straight code: a call of the library's copy would take longer. In line, as the
// rows of a loop have one length.
#[inline(always)]
fn copy_few(origin: Origin<'_>, dst: &mut [u8], at: usize, to: usize, n: usize)
    requires few { n ≤ 64 }
    requires blocked { Blocked origin dst.old at to n }
    ensures { dst.new ≡ element_copied origin.entry dst.old at to n }
{
    if n == 0 {
        return;
    }
    if n <= 4 {
        copy(origin, dst, at, to, n);
    } else if n <= 8 {
        copy_ends::<4>(origin, dst, at, to, n);
    } else if n <= 16 {
        copy_ends::<8>(origin, dst, at, to, n);
    } else if n <= 32 {
        copy_ends::<16>(origin, dst, at, to, n);
    } else {
        copy_ends::<32>(origin, dst, at, to, n);
    }
}

// More bytes. Within one memory the two blocks share no byte, so it is cut in two between them: `copy_within` would go byte by byte, and
// take longer.
fn copy_many(origin: Origin<'_>, dst: &mut [u8], at: usize, to: usize, n: usize)
    requires many { 0 < n }
    requires blocked { Blocked origin dst.old at to n }
    ensures { dst.new ≡ element_copied origin.entry dst.old at to n }
{
    match origin {
        Origin::Lent(src) => dst[to..to + n].copy_from_slice(&src[at..at + n]),
        Origin::Inside if at < to => {
            let (front, back) = dst.split_at_mut(to);
            back[..n].copy_from_slice(&front[at..at + n]);
        }
        Origin::Inside => {
            let (front, back) = dst.split_at_mut(at);
            front[to..to + n].copy_from_slice(&back[..n]);
        }
    }
}

// n bytes from `at` of the source to `to`.
#[inline(always)]
pub(crate) fn copy_bytes(origin: Origin<'_>, dst: &mut [u8], at: usize, to: usize, n: usize)
    requires { Blocked origin dst.old at to n }
    ensures { dst.new ≡ element_copied origin.entry dst.old at to n }
{
    if n <= 64 {
        copy_few(origin, dst, at, to, n);
    } else {
        copy_many(origin, dst, at, to, n);
    }
}
