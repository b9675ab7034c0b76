// Which way a patch goes: one contract for all of them. The tests are equalities with what a way needs. Each stands beside the call that
// it allows: with an enum of the ways a `match` would name each again.
ghost use Rattle.std.specs.Prelude.{◌≡◌, true};
ghost use Rattle.mover.specs.Private.Patches.{Tiled, Turns, Lines, patch_copied, patch_padded, PatchFits, PatchReads};

use crate::elements::Origin;
use crate::patches::{Patch, copy_lines, copy_rows, pad_rows, swapped};
use crate::strips::{copy_strip, copy_strips};
use crate::tiles::Tile;

// Whether there are two rows or more, and each is a run of bytes. A single one goes as a row, which finds its own way.
fn are_lines(p: Patch) -> bool
    ensures { result ≡ true → Lines p }
{
    1 < p.rows && p.jump == p.size && p.stride == p.size
}

// Whether the rows are the channels of pixels of three bytes that stand side by side in the source.
fn is_split(p: Patch) -> bool
    ensures { result ≡ true → Tiled Tile.Split p }
{
    p.size == 1 && p.rows == 3 && p.row_jump == 1 && p.jump == 3 && p.stride == 1
}

// Whether they are those of pixels that stand side by side in the destination.
fn is_merged(p: Patch) -> bool
    ensures { result ≡ true → Tiled Tile.Merged p }
{
    p.size == 1 && p.rows == 3 && p.row_stride == 1 && p.jump == 1 && p.stride == 3
}

// Whether rows and columns are exchanged, of elements of 1, 2 or 4 bytes.
fn turns(p: Patch) -> bool
    ensures { result ≡ true → Turns p }
{
    p.size != 3 && p.row_jump == p.size && p.stride == p.size
}

// Kept elements of a few columns: pixels put together, else column by column; of a few rows too, row by row.
fn copy_narrow(origin: Origin<'_>, dst: &mut [u8], p: Patch)
    requires patch_fits { PatchFits dst.old p }
    requires patch_reads { PatchReads origin dst.old p }
    ensures { dst.new ≡ patch_copied origin.entry dst.old p }
{
    if p.rows < 16 {
        copy_rows(origin, dst, p);
        return;
    }
    let columns = swapped(p);
    if is_merged(columns) {
        copy_strip(origin, dst, Tile::Merged, columns);
    } else {
        copy_rows(origin, dst, columns);
    }
}

// Kept elements of more columns: pixels taken apart, rows and columns exchanged, else row by row.
fn copy_wide(origin: Origin<'_>, dst: &mut [u8], p: Patch)
    requires patch_fits { PatchFits dst.old p }
    requires patch_reads { PatchReads origin dst.old p }
    ensures { dst.new ≡ patch_copied origin.entry dst.old p }
{
    if is_split(p) {
        copy_strip(origin, dst, Tile::Split, p);
    } else if turns(p) {
        copy_strips(origin, dst, p);
    } else {
        copy_rows(origin, dst, p);
    }
}

// Kept elements.
pub(crate) fn copy_patch(origin: Origin<'_>, dst: &mut [u8], p: Patch)
    requires patch_fits { PatchFits dst.old p }
    requires patch_reads { PatchReads origin dst.old p }
    ensures { dst.new ≡ patch_copied origin.entry dst.old p }
{
    if are_lines(p) {
        copy_lines(origin, dst, p);
    } else if p.columns < 16 {
        copy_narrow(origin, dst, p);
    } else {
        copy_wide(origin, dst, p);
    }
}

// Padding: row by row, or column by column where these are few.
pub(crate) fn pad_patch(dst: &mut [u8], p: Patch)
    requires { PatchFits dst.old p }
    ensures { dst.new ≡ patch_padded dst.old p }
{
    if p.columns < 16 && p.columns < p.rows {
        pad_rows(dst, swapped(p));
    } else {
        pad_rows(dst, p);
    }
}
