// Where a run ends: neighbours in a row, or rows, that are all kept or all padding.
ghost use Rattle.std.specs.Prelude.{◌≡◌, ◌+◌, ◌<◌, ◌≤◌, min, ◌&&◌};
ghost use Rattle.mover.specs.Private.Elements.{axis_kept};
ghost use Rattle.mover.specs.Private.Runs.{Alike};

use crate::plan::Axis;

// Whether coordinate c of a dimension is kept, and not padding, and so are those before it, as `outer` tells.
pub(crate) fn kept(outer: bool, x: Axis, c: usize) -> bool
    ensures { result ≡ (outer && axis_kept x c) }
{
    outer && x.pre <= c && c - x.pre < x.count
}

// Neighbours in a row, or rows, that are all kept or all padding: n counts in both cases.
#[derive(Clone, Copy)]
pub(crate) struct Run {
    pub(crate) kept: bool,
    pub(crate) n: usize,
}

// The run from coordinate c on, cut to `most`; `outer` tells whether the other coordinates are kept.
pub(crate) fn run_at(x: Axis, outer: bool, c: usize, most: usize) -> Run
    requires count_bound { x.pre + x.count ≤ x.extent }
    requires c_lt_extent { c < x.extent }
    requires most_nonzero { 0 < most }
    ensures { Alike x outer c most result }
{
    if outer {
        if c < x.pre {
            return Run {
                kept: false,
                n: (x.pre - c).min(most),
            };
        }
        if c - x.pre < x.count {
            return Run {
                kept: true,
                n: (x.count - (c - x.pre)).min(most),
            };
        }
    }
    Run {
        kept: false,
        n: (x.extent - c).min(most),
    }
}
