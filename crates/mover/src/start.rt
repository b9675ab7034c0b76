// Where a step begins: the coordinates of an element from its number, and its spots from the coordinates. This
// multiplies and divides: once a step, and `spot_at` once a band.
ghost use Rattle.std.specs.Prelude.{◌≡◌, ◌+◌, ◌-◌, ◌*◌, ◌^◌, ◌<◌};
ghost use Rattle.mover.specs.Private.Elements.{plan_total};
ghost use Rattle.mover.specs.Private.Adding.{along, jumps_of, spot_at, beginning_of};
ghost use Rattle.mover.specs.Private.Plans.{jump_length};
ghost use Rattle.mover.specs.Private.Ready.{reach_of, place_end, GoodAxes};

use crate::plan::{Axis, Plan, goes_down, length_of};
use crate::spots::{Spot, Spots};

// The coordinates of an element, and its spots.
#[derive(Clone, Copy)]
pub(crate) struct Beginning {
    pub(crate) c0: usize,
    pub(crate) c1: usize,
    pub(crate) c2: usize,
    pub(crate) c3: usize,
    pub(crate) spots: Spots,
}

// How many jumps the source is on at coordinate c: those to the nearest coordinate that is kept.
fn jumps(x: Axis, c: usize) -> usize
    requires { 0 < x.count }
    ensures { result ≡ jumps_of x c }
{
    c.saturating_sub(x.pre).min(x.count - 1)
}

// n jumps on from `at`.
fn after(at: usize, jump: usize, n: usize) -> usize
    requires { n * jump_length jump < 2 ^ 64 }
    ensures { result ≡ along at jump n }
{
    let far = n * length_of(jump);
    if goes_down(jump) {
        at.wrapping_sub(far)
    } else {
        at.wrapping_add(far)
    }
}

// The spot at coordinate c of a dimension, from that at its start.
pub(crate) fn spot_at(s: Spot, x: Axis, c: usize) -> Spot
    requires count_nonzero { 0 < x.count }
    requires stride_bound { s.to + c * x.stride < 2 ^ 64 }
    requires jump_bound { (x.count - 1) * jump_length x.jump < 2 ^ 64 }
    ensures { result ≡ spot_at s x c }
{
    Spot {
        to: s.to + c * x.stride,
        at: after(s.at, x.jump, jumps(x, c)),
    }
}

// The coordinates and the spots of element number `from`, with which a step begins.
pub(crate) fn begin(plan: Plan, from: usize) -> Beginning
    requires good_axes { GoodAxes plan }
    requires plan_bound { (reach_of plan < 2 ^ 64) × (place_end plan < 2 ^ 64) }
    requires from_bound { from < plan_total plan }
    ensures { result ≡ beginning_of plan from }
{
    let e1 = plan.d1.extent;
    let e2 = plan.d2.extent;
    let e3 = plan.d3.extent;
    let rows = from / e3;
    let layers = rows / e2;
    let c0 = layers / e1;
    let c1 = layers % e1;
    let c2 = rows % e2;
    let c3 = from % e3;
    let first = Spot {
        to: plan.base,
        at: plan.home,
    };
    let slab = spot_at(first, plan.d0, c0);
    let layer = spot_at(slab, plan.d1, c1);
    let row = spot_at(layer, plan.d2, c2);
    let here = spot_at(row, plan.d3, c3);
    let spots = Spots {
        slab,
        layer,
        row,
        here,
    };
    Beginning {
        c0,
        c1,
        c2,
        c3,
        spots,
    }
}
