// Bands: whole rows of a layer that are moved together. Where a band begins and ends is worked out once for it, by products and a
// quotient. Functions, not methods, as a loop calls them (layers.rt, scripts/by-adding).
ghost use Rattle.std.specs.Prelude.{◌≡◌, ◌+◌, ◌-◌, ◌*◌, ◌^◌, ◌<◌, ◌≤◌, MatchOption};
ghost use Rattle.mover.specs.Private.Plans.{jump_length};
ghost use Rattle.mover.specs.Private.Ready.{GoodAxis};
ghost use Rattle.mover.specs.Private.Patches.{patch_of};
ghost use Rattle.mover.specs.Private.Bands.{BandAt, Banded, Framed, band_moved, behind_rows};

use crate::alike::run_at;
use crate::elements::Origin;
use crate::patches::Patch;
use crate::plan::{Axis, Plan};
use crate::spots::{Spot, Spots, next_row};
use crate::start::spot_at;
use crate::ways::{copy_patch, pad_patch};

// Whole rows that are all kept or all padding, as far as the coordinates outside of them tell: rows and elements count in both cases.
#[derive(Clone, Copy)]
pub(crate) struct Band {
    pub(crate) kept: bool,
    pub(crate) rows: usize,
    pub(crate) elements: usize, // of all rows
}

// What is the same for all bands of a step: how many rows one has at the most; and of each row, in bytes from its start, where what is
// kept begins, and where padding goes on behind it, if there is any.
#[derive(Clone, Copy)]
pub(crate) struct Frame {
    pub(crate) most: usize,
    pub(crate) front: usize,
    pub(crate) rear: Option<usize>,
}

// Some thousands of elements, which a processor keeps at hand, or 64 rows.
fn most_rows(e: usize) -> usize
    requires { 0 < e }
    ensures { 0 < result }
{
    if e < 256 { 16384 / e } else { 64 }
}

// The frame of a plan's bands, worked out once a step.
pub(crate) fn frame_of(plan: Plan) -> Frame
    requires good_axis { GoodAxis plan.d3 }
    requires stride_bound { (plan.d3.extent - 1) * plan.d3.stride < 2 ^ 64 }
    ensures { Framed plan.d3 result }
{
    let x = plan.d3;
    let end = x.pre + x.count;
    let rear = if end < x.extent {
        Some(end * x.stride)
    } else {
        None
    };
    Frame {
        most: most_rows(x.extent),
        front: x.pre * x.stride,
        rear,
    }
}

// The band from row c on of a layer: as many rows as are alike, and `left` pays for, and the frame allows. None where `left` does not pay
// for one.
pub(crate) fn band_at(plan: Plan, f: Frame, outer: bool, c: usize, left: usize) -> Option<Band>
    requires count_bound { plan.d2.pre + plan.d2.count ≤ plan.d2.extent }
    requires c_lt_extent { c < plan.d2.extent }
    requires most_nonzero { (0 < plan.d3.extent) × (0 < f.most) }
    ensures { MatchOption result (left < plan.d3.extent) (λ b. BandAt plan.d2 plan.d3.extent outer c left b) }
{
    let e = plan.d3.extent;
    if left < e {
        return None;
    }
    let run = run_at(plan.d2, outer, c, left);
    let rows = run.n.min(f.most).min(left / e);
    let elements = rows * e;
    Some(Band {
        kept: run.kept,
        rows,
        elements,
    })
}

// Some columns of some rows of a plan; the first element stands at `at` and goes to `to`.
fn patch(plan: Plan, at: usize, to: usize, rows: usize, columns: usize) -> Patch
    ensures { result ≡ patch_of plan at to rows columns }
{
    let pad = plan.pad;
    Patch {
        at,
        to,
        size: plan.size,
        pad,
        rows,
        row_jump: plan.d2.jump,
        row_stride: plan.d2.stride,
        columns,
        jump: plan.d3.jump,
        stride: plan.d3.stride,
    }
}

// Moves a band, whose first row starts at `row`: what is padded in front, what is kept, and what is padded behind.
pub(crate) fn move_band(
    origin: Origin<'_>,
    dst: &mut [u8],
    plan: Plan,
    f: Frame,
    row: Spot,
    band: Band,
)
    requires framed { Framed plan.d3 f }
    requires banded { Banded origin plan dst.old row band }
    ensures { dst.new ≡ band_moved origin.entry plan dst.old row band }
{
    let x = plan.d3;
    let n = band.rows;
    if band.kept {
        if x.count == x.extent {
            copy_patch(origin, dst, patch(plan, row.at, row.to, n, x.extent));
            return;
        }
        pad_patch(dst, patch(plan, row.at, row.to, n, x.pre));
        let first = row.to.wrapping_add(f.front);
        copy_patch(origin, dst, patch(plan, row.at, first, n, x.count));
        if let Some(rear) = f.rear {
            let last = row.to.wrapping_add(rear);
            let columns = x.extent - x.pre - x.count;
            pad_patch(dst, patch(plan, row.at, last, n, columns));
        }
        return;
    }
    pad_patch(dst, patch(plan, row.at, row.to, n, x.extent));
}

// The spots of row c, where those before it were moved together: a stride after the last of them.
pub(crate) fn behind(s: Spots, x: Axis, c: usize) -> Spots
    requires count_nonzero { (0 < x.count) × (0 < c) }
    requires stride_bound { s.layer.to + (c - 1) * x.stride < 2 ^ 64 }
    requires jump_bound { (x.count - 1) * jump_length x.jump < 2 ^ 64 }
    ensures { result ≡ behind_rows s x c }
{
    let layer = s.layer;
    let row = spot_at(layer, x, c - 1);
    next_row(Spots { row, ..s }, x, c)
}
