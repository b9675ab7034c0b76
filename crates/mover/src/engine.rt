// The loops of a move: destination elements in destination order, the last coordinate fastest, from any element on, until the
// budget is spent. The innermost goes on by runs. Between two elements places go on by adding alone: after `begin`, nothing here nor
// in what is called works a place out by multiplying or dividing. What the loops are handed was worked out and accepted by the rules.
// Origin, destination and plan go through the calls side by side: a struct of them would hold the lent `dst` and hand it back, and its
// caller could not be proved to have the same slice again.
ghost use Rattle.std.specs.Prelude.{◌≡◌, ◌-◌, ◌<◌, min, true};
ghost use Rattle.mover.specs.Private.Elements.{plan_total, moved_from};
ghost use Rattle.mover.specs.Private.Adding.{after_run};
ghost use Rattle.mover.specs.Private.Runs.{course_of, run_moved, Readable, Writable};
ghost use Rattle.mover.specs.Private.Ready.{Ready};

use crate::alike::{Run, kept, run_at};
use crate::courses::move_course;
use crate::elements::{Course, Origin};
use crate::plan::Plan;
use crate::spots::{Spot, Spots, next_layer, next_row, next_slab};
use crate::start::begin;

// Moves a run, kept elements or padding, and tells the spots after it: where to store the next element of the row.
fn move_run(origin: Origin<'_>, dst: &mut [u8], plan: Plan, s: Spots, run: Run) -> Spots
    requires writable { Writable dst.old (course_of plan s.here run) }
    requires readable { run.kept ≡ true → Readable origin dst.old (course_of plan s.here run) }
    ensures next { result ≡ after_run s plan.d3 run.n }
    ensures written { dst.new ≡ run_moved origin.entry plan dst.old s.here run }
{
    let at = s.here.at;
    let pad = plan.pad;
    let course = Course {
        at,
        jump: plan.d3.jump,
        to: s.here.to,
        stride: plan.d3.stride,
        size: plan.size,
        pad,
        n: run.n,
    };
    let to = move_course(origin, dst, course, run.kept);
    let here = Spot { to, at };
    Spots { here, ..s }
}

// Writes the elements numbered from, from + 1, .. and tells how many: the budget, or what is left. Whether the outer coordinates are
// kept is decided where they change. The form is the paper's: nested loops over four destination coordinates, left by a label when the
// budget reaches zero.
pub(crate) fn by_runs(
    origin: Origin<'_>,
    dst: &mut [u8],
    plan: Plan,
    from: usize,
    budget: usize,
) -> usize
    requires ready { Ready origin plan dst.old }
    requires from_bound { from < plan_total plan }
    ensures counted { result ≡ min budget (plan_total plan - from) }
    ensures written { dst.new ≡ moved_from origin.entry plan dst.old from result }
{
    let start = begin(plan, from);
    let mut first1 = start.c1; // where the coordinates begin: the next slabs and layers begin at 0
    let mut first2 = start.c2;
    let mut c3 = start.c3;
    let mut spots = start.spots;
    let mut left = budget;
    'all: for c0 in start.c0..plan.d0.extent {
        let kept0 = kept(true, plan.d0, c0);
        for c1 in first1..plan.d1.extent {
            let kept1 = kept(kept0, plan.d1, c1);
            for c2 in first2..plan.d2.extent {
                let kept2 = kept(kept1, plan.d2, c2);
                while c3 < plan.d3.extent {
                    let is_spent = left == 0;
                    if is_spent {
                        break 'all;
                    }
                    let run = run_at(plan.d3, kept2, c3, left);
                    c3 += run.n;
                    left -= run.n;
                    spots = move_run(origin, dst, plan, spots, run);
                }
                c3 = 0;
                spots = next_row(spots, plan.d2, c2 + 1);
            }
            first2 = 0;
            spots = next_layer(spots, plan.d1, c1 + 1);
        }
        first1 = 0;
        spots = next_slab(spots, plan.d0, c0 + 1);
    }
    budget - left
}
