// Leaves: blocks of bytes, copied from one slice to another, often into a local array or out of it; and every second byte, read into one.
// What goes through an array is read whole before a byte is stored. They know of no plan and no origin: a source is a slice, whichever
// it is.
ghost use Rattle.std.specs.Prelude.{◌≡◌, ◌+◌, ◌*◌, ◌%◌, ◌≤◌, length, take, drop, slice_index};
ghost use Rattle.std.proofs.lemmas.List.Edits.{sets};
ghost use Rattle.mover.specs.Private.Runs.{Held, kept_bytes, run_stored};
ghost use Rattle.mover.specs.Private.Shuffles.{made};

use crate::elements::Course;
use std::array;

// n bytes from `at` of src to `to` of dst.
pub(crate) fn copy_block(src: &[u8], at: usize, dst: &mut [u8], to: usize, n: usize)
    requires n_in_bounds { at + n ≤ length src.now }
    requires n_in_bounds_2 { to + n ≤ length dst.old }
    ensures { dst.new ≡ sets dst.old to (take n (drop at src.now)) }
{
    dst[to..to + n].copy_from_slice(&src[at..at + n]);
}

// The N bytes from `at` on, and N bytes stored from `to` on.
pub(crate) fn read<const N: usize>(src: &[u8], at: usize) -> [u8; N]
    requires { at + N ≤ length src.now }
    ensures { result ≡ take N (drop at src.now) }
{
    let mut a = [0u8; N];
    copy_block(src, at, &mut a, 0, N);
    a
}

pub(crate) fn write<const N: usize>(a: [u8; N], dst: &mut [u8], to: usize)
    requires { to + N ≤ length dst.old }
    ensures { dst.new ≡ sets dst.old to a.entry }
{
    copy_block(&a, 0, dst, to, N);
}

// A course of blocks: c.n blocks of c.size bytes, whatever that is.
pub(crate) fn copy_blocks(src: &[u8], dst: &mut [u8], c: Course)
    requires held { Held (length src.now) c.at c.jump c.size c.n }
    requires held_2 { Held (length dst.old) c.to c.stride c.size c.n }
    ensures { dst.new ≡ run_stored (kept_bytes src.now c) c.to c.stride c.n dst.old }
{
    let mut at = c.at;
    let mut to = c.to;
    for _ in 0..c.n {
        copy_block(src, at, dst, to, c.size);
        at = at.wrapping_add(c.jump);
        to = to.wrapping_add(c.stride);
    }
}

// 16 pairs of bytes, each as one number, so that the compiler takes them all at once. By their places: of the elements of chunks nothing is
// known afterwards.
fn pairs(src: &[u8], from: usize) -> [u16; 16]
    requires { from + 32 ≤ length src.now }
    ensures { result ≡ made 16 (λ k. slice_index src.now (from + 2 * k) + slice_index src.now (from + 2 * k + 1) * 256) }
{
    array::from_fn(|k| u16::from_le_bytes([src[from + k + k], src[from + k + k + 1]]))
}

// The low byte of each.
fn lows(a: [u16; 16]) -> [u8; 16]
    ensures { result ≡ made 16 (λ k. slice_index a k % 256) }
{
    a.map(|x| x.to_le_bytes()[0])
}

// Every second of 32 bytes.
pub(crate) fn read_evens(src: &[u8], at: usize) -> [u8; 16]
    requires { at + 32 ≤ length src.now }
    ensures { result ≡ made 16 (λ k. slice_index src.now (at + 2 * k)) }
{
    lows(pairs(src, at))
}
