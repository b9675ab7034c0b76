// A run of elements, by the way that its jump and its stride allow. The tests are equalities with what a way needs: a jump may also be one
// down, which as 64 bits count is a large number.
ghost use Rattle.std.specs.Prelude.{◌≡◌, ◌+◌, ◌*◌, ◌<◌, ◌≤◌, true, length, slice_index};
ghost use Rattle.mover.specs.Private.Elements.{source_bytes};
ghost use Rattle.mover.specs.Private.Adding.{along};
ghost use Rattle.mover.specs.Private.Runs.{Readable, Writable, Evens, run_copied, course_moved};
ghost use Rattle.mover.specs.Private.Shuffles.{made};

use crate::arrays::read_evens;
use crate::copies::{bytes, copy_bytes};
use crate::elements::{Course, Origin, copy_each, pad_run, source};

// Whether n pairs of bytes from `at` on lie in `len` bytes.
fn are_pairs(len: usize, at: usize, n: usize) -> bool
    ensures { result ≡ true → at + n + n ≤ len }
{
    at <= len && n <= len - at && n <= len - at - n
}

// How many of n pairs do: all, or all but the last, or it is not looked further.
fn pairs_in(len: usize, at: usize, n: usize) -> usize
    ensures { (result ≤ n) × (0 < result → at + result + result ≤ len) }
{
    if are_pairs(len, at, n) {
        return n;
    }
    if 0 < n && are_pairs(len, at, n - 1) {
        return n - 1;
    }
    0
}

// A run of single bytes, every second of the source's, to bytes side by side; tells where the next is stored. As long as 16 are left it
// takes as many: source and destination, which may be one memory, cannot both be lent in chunks.
fn copy_evens(origin: Origin<'_>, dst: &mut [u8], c: Course) -> usize
    requires evens { Evens c }
    requires writable { Writable dst.old c }
    requires readable { Readable origin dst.old c }
    ensures next { result ≡ along c.to c.stride c.n }
    ensures written { dst.new ≡ run_copied origin.entry dst.old c }
{
    let n = pairs_in(source(origin, dst).len(), c.at, c.n);
    let mut at = c.at;
    let mut to = c.to;
    let blocks = n >> 4;
    for _ in 0..blocks {
        let a = read_evens(source(origin, dst), at);
        dst[to..to + 16].copy_from_slice(&a);
        at = at.wrapping_add(32);
        to = to.wrapping_add(16);
    }
    let rest = Course {
        at,
        jump: 2,
        to,
        stride: 1,
        size: 1,
        n: c.n - (blocks << 4),
        ..c
    };
    copy_each(origin, dst, rest)
}

// Whether a run takes every second byte to bytes side by side.
fn are_evens(c: Course) -> bool
    ensures { result ≡ true → Evens c }
{
    c.size == 1 && c.stride == 1 && c.jump == 2
}

// A run that is not side by side in both: where the compiler is told that it is in one of them, it makes a shorter loop. Out of line, so
// that a run of bytes saves nothing for it.
#[inline(never)]
fn copy_apart(origin: Origin<'_>, dst: &mut [u8], c: Course) -> usize
    requires writable { Writable dst.old c }
    requires readable { Readable origin dst.old c }
    ensures next { result ≡ along c.to c.stride c.n }
    ensures written { dst.new ≡ run_copied origin.entry dst.old c }
{
    if c.stride == c.size {
        if are_evens(c) {
            return copy_evens(origin, dst, c);
        }
        return copy_each(
            origin,
            dst,
            Course {
                stride: c.size,
                ..c
            },
        );
    }
    if c.jump == c.size {
        return copy_each(origin, dst, Course { jump: c.size, ..c });
    }
    copy_each(origin, dst, c)
}

// A run of kept elements; tells where the next is stored. Side by side in both they are a run of bytes.
#[inline(always)]
pub(crate) fn copy_run(origin: Origin<'_>, dst: &mut [u8], c: Course) -> usize
    requires writable { Writable dst.old c }
    requires readable { Readable origin dst.old c }
    ensures next { result ≡ along c.to c.stride c.n }
    ensures written { dst.new ≡ run_copied origin.entry dst.old c }
{
    if c.stride == c.size && c.jump == c.size {
        let n = bytes(c.size, c.n);
        copy_bytes(origin, dst, c.at, c.to, n);
        return c.to.wrapping_add(n);
    }
    copy_apart(origin, dst, c)
}

// A run, of kept elements or of padding; tells where the next element is stored. For a few elements no way is looked for.
pub(crate) fn move_course(origin: Origin<'_>, dst: &mut [u8], c: Course, kept: bool) -> usize
    requires writable { Writable dst.old c }
    requires readable { kept ≡ true → Readable origin dst.old c }
    ensures next { result ≡ along c.to c.stride c.n }
    ensures written { dst.new ≡ course_moved origin.entry kept dst.old c }
{
    if kept {
        if c.n < 16 {
            return copy_each(origin, dst, c);
        }
        return copy_run(origin, dst, c);
    }
    pad_run(dst, c)
}
