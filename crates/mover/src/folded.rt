// Dimensions that are one: where each row goes on where the last one ended, in source and destination, the rows of a layer are one row. So
// a plane that is copied whole is one row, whatever its rank. Worked out once a step.
ghost use Rattle.std.specs.Prelude.{◌≡◌, ◌*◌, ◌^◌, ◌<◌, true};
ghost use Rattle.mover.specs.Private.Folding.{Follows, Joins, as_one, Folds, Foldable};

use crate::plan::{Axis, Plan, goes_down, length_of, lone};

// Whether e times `inner` is `outer`.
fn is_times(outer: usize, e: usize, inner: usize) -> bool
    ensures { result ≡ true → outer ≡ e * inner }
{
    e.checked_mul(inner) == Some(outer)
}

impl Axis {
    // Whether nothing of the inner dimension is padding and this one goes on where it ends, in the same direction.
    fn follows(self, inner: Axis) -> bool
        ensures { result ≡ true → Follows self inner }
    {
        inner.count == inner.extent
            && goes_down(self.jump) == goes_down(inner.jump)
            && is_times(length_of(self.jump), inner.extent, length_of(inner.jump))
            && is_times(self.stride, inner.extent, inner.stride)
    }

    // Whether this dimension and its inner neighbour are one: the inner has one coordinate, or this one follows it. One of one coordinate
    // stays as it is.
    fn joins(self, inner: Axis) -> bool
        ensures { result ≡ true → Joins self inner }
    {
        self.extent != 1 && (inner.extent == 1 || self.follows(inner))
    }

    // Both as one.
    fn as_one(self, inner: Axis) -> Axis
        requires extent_bound { self.extent * inner.extent < 2 ^ 64 }
        requires extent_bound_2 { self.pre * inner.extent < 2 ^ 64 × (self.count * inner.extent < 2 ^ 64) }
        ensures { result ≡ as_one self inner }
    {
        if inner.extent == 1 {
            return self;
        }
        let e = inner.extent;
        Axis {
            extent: self.extent * e,
            pre: self.pre * e,
            count: self.count * e,
            jump: inner.jump,
            stride: inner.stride,
        }
    }
}

// The plan of the same move, with as few dimensions as these make: the first two as one, where they are, then the middle two, then the
// last two. Those outside move in.
pub(crate) fn folded(p: Plan) -> Plan
    requires { Foldable p }
    ensures { Folds p result }
{
    let mut d0 = p.d0;
    let mut d1 = p.d1;
    let mut d2 = p.d2;
    let mut d3 = p.d3;
    if d0.joins(d1) {
        d1 = d0.as_one(d1);
        d0 = lone();
    }
    if d1.joins(d2) {
        d2 = d1.as_one(d2);
        d1 = d0;
        d0 = lone();
    }
    if d2.joins(d3) {
        d3 = d2.as_one(d3);
        d2 = d1;
        d1 = d0;
        d0 = lone();
    }
    Plan {
        d0,
        d1,
        d2,
        d3,
        ..p
    }
}
