// Strips: the rows of one tile, tile by tile, and what is left of the columns row by row. As in patches.rt, each loop names what it does
// with a part; and it counts its steps, since `step_by` divides.
ghost use Rattle.std.specs.Prelude.{◌≡◌};
ghost use Rattle.mover.specs.Private.Patches.{Tiled, Turns, across_of, sixteenth_of, tile_step, patch_copied, PatchFits, PatchReads};

use crate::elements::Origin;
use crate::patches::{Patch, copy_rows};
use crate::tiles::{Tile, copy_tile};

// From a tile to the next: how many columns, and how far in source and destination.
#[derive(Clone, Copy)]
pub(crate) struct Step {
    pub(crate) columns: usize,
    pub(crate) jump: usize,
    pub(crate) stride: usize,
}

// How far on element number 16 / size is, where elements are j apart: by adding.
fn across(size: usize, j: usize) -> usize
    ensures { result ≡ across_of size j }
{
    let two = j.wrapping_add(j);
    let four = two.wrapping_add(two);
    let eight = four.wrapping_add(four);
    match size {
        4 => four,
        2 => eight,
        _ => eight.wrapping_add(eight),
    }
}

// How many elements 16 bytes have.
fn sixteenth(size: usize) -> usize
    ensures { result ≡ sixteenth_of size }
{
    match size {
        4 => 4,
        2 => 8,
        _ => 16,
    }
}

// The step of a kind of tile.
fn step_of(tile: Tile, p: Patch) -> Step
    ensures { result ≡ tile_step tile p }
{
    match tile {
        Tile::Turned => Step {
            columns: sixteenth(p.size),
            jump: across(p.size, p.jump),
            stride: 16,
        },
        Tile::Split => Step {
            columns: 32,
            jump: 96,
            stride: 32,
        },
        Tile::Merged => Step {
            columns: 16,
            jump: 16,
            stride: 48,
        },
    }
}

// A patch that has the rows of one tile.
pub(crate) fn copy_strip(origin: Origin<'_>, dst: &mut [u8], tile: Tile, p: Patch)
    requires tiled { Tiled tile p }
    requires patch_fits { PatchFits dst.old p }
    requires patch_reads { PatchReads origin dst.old p }
    ensures { dst.new ≡ patch_copied origin.entry dst.old p }
{
    let s = step_of(tile, p);
    let mut at = p.at;
    let mut to = p.to;
    let mut k = 0;
    while s.columns <= p.columns - k {
        copy_tile(
            origin,
            dst,
            tile,
            Patch {
                at,
                to,
                columns: s.columns,
                ..p
            },
        );
        at = at.wrapping_add(s.jump);
        to = to.wrapping_add(s.stride);
        k += s.columns;
    }
    if k < p.columns {
        copy_rows(
            origin,
            dst,
            Patch {
                at,
                to,
                columns: p.columns - k,
                ..p
            },
        );
    }
}

// A patch of which rows and columns are exchanged, strip by strip, and what is left of the rows one by one.
pub(crate) fn copy_strips(origin: Origin<'_>, dst: &mut [u8], p: Patch)
    requires turns { Turns p }
    requires patch_fits { PatchFits dst.old p }
    requires patch_reads { PatchReads origin dst.old p }
    ensures { dst.new ≡ patch_copied origin.entry dst.old p }
{
    let n = sixteenth(p.size);
    let further = across(p.size, p.row_stride);
    let mut at = p.at;
    let mut to = p.to;
    let mut k = 0;
    while n <= p.rows - k {
        copy_strip(
            origin,
            dst,
            Tile::Turned,
            Patch {
                at,
                to,
                rows: n,
                ..p
            },
        );
        at = at.wrapping_add(16);
        to = to.wrapping_add(further);
        k += n;
    }
    if k < p.rows {
        copy_rows(
            origin,
            dst,
            Patch {
                at,
                to,
                rows: p.rows - k,
                ..p
            },
        );
    }
}
