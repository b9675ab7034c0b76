// Tiles: a few rows by a few columns of a patch, read, put into their order in an array, and stored.
ghost use Rattle.std.specs.Prelude.{◌≡◌};
ghost use Rattle.mover.specs.Private.Shuffles.{Turning};
ghost use Rattle.mover.specs.Private.Patches.{Tiled, tile_columns, rows_in, patch_copied, PatchFits, PatchReads};

use crate::arrays::{copy_block, copy_blocks};
use crate::elements::{Course, Origin, source};
use crate::patches::Patch;
use crate::shuffles::{Shuffle, merge, shuffled, split};

// What rows and columns of a tile are.
#[derive(Clone, Copy)]
pub(crate) enum Tile {
    Turned, // 16 bytes of a row stand in a column of the source
    Split, // three rows are the channels of pixels that stand side by side
    Merged, // three rows are the channels, and the pixels are put side by side
}

// The rows of a tile, `width` bytes each, which stand in an array one after the other: n of them to `to` and each a stride further.
fn rows_of(width: usize, n: usize, to: usize, stride: usize) -> Course
    ensures { result ≡ rows_in width n to stride }
{
    Course {
        at: 0,
        jump: width,
        to,
        stride,
        size: width,
        pad: [0u8; 4],
        n,
    }
}

// A tile of N bytes, of as many rows as columns, each of SIZE bytes, where a shuffle turns it.
fn copy_square<const N: usize, const SIZE: usize>(
    origin: Origin<'_>,
    dst: &mut [u8],
    p: Patch,
    s: Shuffle,
)
    requires turned { (p.size ≡ SIZE) × Turning N SIZE s }
    requires tiled { Tiled Tile.Turned p × (p.columns ≡ tile_columns Tile.Turned p) }
    requires patch_fits { PatchFits dst.old p }
    requires patch_reads { PatchReads origin dst.old p }
    ensures { dst.new ≡ patch_copied origin.entry dst.old p }
{
    let t = shuffled::<N, SIZE>(source(origin, dst), p.at, p.jump, s);
    copy_blocks(&t, dst, rows_of(16, s.rows, p.to, p.row_stride));
}

// A tile of 16, 8 or 4 rows, by the size of an element.
fn copy_turned(origin: Origin<'_>, dst: &mut [u8], p: Patch)
    requires tiled { Tiled Tile.Turned p × (p.columns ≡ tile_columns Tile.Turned p) }
    requires patch_fits { PatchFits dst.old p }
    requires patch_reads { PatchReads origin dst.old p }
    ensures { dst.new ≡ patch_copied origin.entry dst.old p }
{
    match p.size {
        1 => {
            let s = Shuffle {
                rows: 16,
                half: 128,
                times: 4,
            };
            copy_square::<256, 1>(origin, dst, p, s);
        }
        2 => {
            let s = Shuffle {
                rows: 8,
                half: 64,
                times: 3,
            };
            copy_square::<128, 2>(origin, dst, p, s);
        }
        _ => {
            let s = Shuffle {
                rows: 4,
                half: 32,
                times: 2,
            };
            copy_square::<64, 4>(origin, dst, p, s);
        }
    }
}

// A tile of a patch.
pub(crate) fn copy_tile(origin: Origin<'_>, dst: &mut [u8], tile: Tile, p: Patch)
    requires tiled { Tiled tile p × (p.columns ≡ tile_columns tile p) }
    requires patch_fits { PatchFits dst.old p }
    requires patch_reads { PatchReads origin dst.old p }
    ensures { dst.new ≡ patch_copied origin.entry dst.old p }
{
    match tile {
        Tile::Turned => copy_turned(origin, dst, p),
        Tile::Split => {
            let t = split(source(origin, dst), p.at);
            copy_blocks(&t, dst, rows_of(32, 3, p.to, p.row_stride));
        }
        Tile::Merged => {
            let t = merge(source(origin, dst), p.at, p.row_jump);
            copy_block(&t, 0, dst, p.to, 48);
        }
    }
}
