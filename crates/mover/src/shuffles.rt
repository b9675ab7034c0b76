// Leaves: elements of a local array put into another order. A shuffle takes the halves of an array in turn: element k of the first half
// goes to 2k, of the second to 2k + 1. Some of them, one after the other, exchange rows and columns. `copy` moves an
// element of any size, with the array for a lent source.
ghost use Rattle.std.specs.Prelude.{◌≡◌, ◌+◌, ◌*◌, ◌/◌, ◌%◌, ◌≤◌, min, length, slice_index};
ghost use Rattle.plane.specs.Planes.{Sized};
ghost use Rattle.mover.specs.Private.Runs.{Held};
ghost use Rattle.mover.specs.Private.Shuffles.{made, zipped, shuffled, rows_read, split_of, merged_of};

use crate::arrays::copy_blocks;
use crate::elements::{Course, Origin, copy};

// How many rows of 16 bytes are read, one after the other, and how they are shuffled.
#[derive(Clone, Copy)]
pub(crate) struct Shuffle {
    pub(crate) rows: usize,
    pub(crate) half: usize, // bytes of a half
    pub(crate) times: usize,
}

// The two halves of t, SIZE bytes of each in turn. The steps are counted here: `step_by` and `chunks` divide, which no loop of a move does
// (scripts/by-adding).
fn zipped<const N: usize, const SIZE: usize>(t: [u8; N], half: usize) -> [u8; N]
    requires sized { Sized SIZE × (half % SIZE ≡ 0) }
    requires halves { N ≡ half + half }
    ensures { result ≡ zipped half SIZE t.entry }
{
    let mut o = [0u8; N];
    let mut k = 0;
    let mut j = 0;
    while k < half {
        copy(Origin::Lent(&t), &mut o, k, j, SIZE);
        copy(Origin::Lent(&t), &mut o, k + half, j + SIZE, SIZE);
        k += SIZE;
        j += SIZE + SIZE;
    }
    o
}

// Rows of the source, the first at `at` and each a jump further, shuffled as elements of SIZE bytes. The compiler puts the elements in
// order many at once where it knows their size: as an argument that two callers give differently it costs ten times as much.
pub(crate) fn shuffled<const N: usize, const SIZE: usize>(
    src: &[u8],
    at: usize,
    jump: usize,
    s: Shuffle,
) -> [u8; N]
    requires held { Held (length src.now) at jump 16 s.rows }
    requires sized { Sized SIZE × (s.half % SIZE ≡ 0) }
    requires halves { (s.rows * 16 ≤ N) × (N ≡ s.half + s.half) }
    ensures { result ≡ shuffled SIZE s (rows_read src.now at jump s.rows N) }
{
    let mut a = [0u8; N];
    let c = Course {
        at,
        jump,
        to: 0,
        stride: 16,
        size: 16,
        pad: [0u8; 4],
        n: s.rows,
    };
    copy_blocks(src, &mut a, c);
    for _ in 0..s.times {
        a = zipped::<N, SIZE>(a, s.half);
    }
    a
}

// 32 pixels of three bytes, the channels taken apart.
pub(crate) fn split(src: &[u8], at: usize) -> [u8; 96]
    requires { at + 96 ≤ length src.now }
    ensures { result ≡ split_of src.now at }
{
    let s = Shuffle {
        rows: 6,
        half: 48,
        times: 5,
    };
    shuffled::<96, 1>(src, at, 16, s)
}

// The first three of each four bytes. The fourth is written too, as the compiler then writes all four at once, and written over; the last
// stays. The steps are counted, as in `zipped`.
fn threes(t: [u8; 64]) -> [u8; 49]
    ensures { result ≡ made 49 (λ j. slice_index t (min (j / 3 * 4 + j % 3) 63)) }
{
    let mut o = [0u8; 49];
    let mut k = 0;
    let mut j = 0;
    for _ in 0..16usize {
        o[j] = t[k];
        o[j + 1] = t[k + 1];
        o[j + 2] = t[k + 2];
        o[j + 3] = t[k + 3];
        k += 4;
        j += 3;
    }
    o
}

// 16 bytes of each of three channels, put together.
pub(crate) fn merge(src: &[u8], at: usize, jump: usize) -> [u8; 49]
    requires { Held (length src.now) at jump 16 3 }
    ensures { result ≡ merged_of src.now at jump }
{
    let s = Shuffle {
        rows: 3,
        half: 32,
        times: 2,
    };
    threes(shuffled::<64, 1>(src, at, jump, s))
}
