// Patches: rows and columns of elements that are all kept, or all padding. A patch is moved by rows; by columns, where rows and columns are
// exchanged; or tile by tile. Each loop names what it does with a row, and what a patch tells is told by functions, not methods:
// scripts/by-adding sees by the names that the loops call that no element costs a product, and a parameter or a method hides them.
ghost use Rattle.std.specs.Prelude.{◌≡◌};
ghost use Rattle.mover.specs.Private.Patches.{Lines, swapped_of, patch_row, patch_copied, patch_padded, PatchFits, PatchReads};

use crate::copies::{bytes, copy_bytes};
use crate::courses::copy_run;
use crate::elements::{Course, Origin, copy_each, pad_run};

// Element (i, j) stands i rows and j columns on from the first, in source and destination, in bytes.
#[derive(Clone, Copy)]
pub(crate) struct Patch {
    pub(crate) at: usize, // the first, in the source
    pub(crate) to: usize, // and in the destination
    pub(crate) size: usize, // bytes of an element
    pub(crate) pad: [u8; 4], // whose first bytes a padded element holds
    pub(crate) rows: usize,
    pub(crate) row_jump: usize, // from a row to the next
    pub(crate) row_stride: usize,
    pub(crate) columns: usize,
    pub(crate) jump: usize, // from a column to the next
    pub(crate) stride: usize,
}

// The same elements, with rows and columns exchanged.
pub(crate) fn swapped(p: Patch) -> Patch
    ensures { result ≡ swapped_of p }
{
    Patch {
        rows: p.columns,
        row_jump: p.jump,
        row_stride: p.stride,
        columns: p.rows,
        jump: p.row_jump,
        stride: p.row_stride,
        ..p
    }
}

// The row whose first element is at `at` and goes to `to`.
fn row(p: Patch, at: usize, to: usize) -> Course
    ensures { result ≡ patch_row p at to }
{
    let pad = p.pad;
    Course {
        at,
        jump: p.jump,
        to,
        stride: p.stride,
        size: p.size,
        pad,
        n: p.columns,
    }
}

// Padding, row by row.
pub(crate) fn pad_rows(dst: &mut [u8], p: Patch)
    requires { PatchFits dst.old p }
    ensures { dst.new ≡ patch_padded dst.old p }
{
    let mut to = p.to;
    for _ in 0..p.rows {
        pad_run(dst, row(p, p.at, to));
        to = to.wrapping_add(p.row_stride);
    }
}

// Kept elements, row by row. For short rows no way is looked for.
pub(crate) fn copy_rows(origin: Origin<'_>, dst: &mut [u8], p: Patch)
    requires patch_fits { PatchFits dst.old p }
    requires patch_reads { PatchReads origin dst.old p }
    ensures { dst.new ≡ patch_copied origin.entry dst.old p }
{
    let mut at = p.at;
    let mut to = p.to;
    for _ in 0..p.rows {
        let c = row(p, at, to);
        if c.n < 16 {
            copy_each(origin, dst, c);
        } else {
            copy_run(origin, dst, c);
        }
        at = at.wrapping_add(p.row_jump);
        to = to.wrapping_add(p.row_stride);
    }
}

// The same where the elements of a row stand side by side, in source and destination: each row is a run of bytes.
pub(crate) fn copy_lines(origin: Origin<'_>, dst: &mut [u8], p: Patch)
    requires lines { Lines p }
    requires patch_fits { PatchFits dst.old p }
    requires patch_reads { PatchReads origin dst.old p }
    ensures { dst.new ≡ patch_copied origin.entry dst.old p }
{
    let n = bytes(p.size, p.columns);
    let mut at = p.at;
    let mut to = p.to;
    for _ in 0..p.rows {
        copy_bytes(origin, dst, at, to, n);
        at = at.wrapping_add(p.row_jump);
        to = to.wrapping_add(p.row_stride);
    }
}
