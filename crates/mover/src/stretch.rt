// A stretch of a move: its elements from any one on, until the budget is spent.
ghost use Rattle.std.specs.Prelude.{◌≡◌, ◌-◌, ◌<◌, min};
ghost use Rattle.parts.specs.Parts.{bytes_of};
ghost use Rattle.mover.specs.Private.Elements.{lent, plan_total, moved_from};
ghost use Rattle.mover.specs.Private.Ready.{Ready, LiesIn, PartsApart, moved_within};

use crate::Part;
use crate::elements::Origin;
use crate::engine::by_runs;
use crate::folded::folded;
use crate::layers::by_bands;
use crate::plan::Plan;

// Whether a stretch is too short for more than its runs: a few elements, or a single row.
fn is_short(plan: Plan, budget: usize) -> bool {
    budget < 64 || (plan.d2.extent == 1 && plan.d1.extent == 1 && plan.d0.extent == 1)
}

// Whether its layers are too small for bands: a single row, or fewer than 64 elements in rows of fewer than 9.
fn is_few(p: Plan) -> bool
    requires { 0 < p.d3.extent }
{
    if p.d3.extent < 9 {
        p.d2.extent <= 63 / p.d3.extent
    } else {
        p.d2.extent == 1
    }
}

// Writes the elements numbered from, from + 1, .. and tells how many: the budget, or what is left. What of the plan is one dimension is
// made one first; layers of a few elements go by runs.
pub(crate) fn advance(
    origin: Origin<'_>,
    dst: &mut [u8],
    plan: Plan,
    from: usize,
    budget: usize,
) -> usize
    requires ready { Ready origin plan dst.old }
    requires from_bound { from < plan_total plan }
    ensures counted { result ≡ min budget (plan_total plan - from) }
    ensures written { dst.new ≡ moved_from origin.entry plan dst.old from result }
{
    if is_short(plan, budget) {
        return by_runs(origin, dst, plan, from, budget);
    }
    let p = folded(plan);
    if is_few(p) {
        return by_runs(origin, dst, p, from, budget);
    }
    by_bands(origin, dst, p, from, budget)
}

// The same within one memory, from one part of it to another.
pub(crate) fn advance_within(
    mem: &mut [u8],
    source: Part,
    destination: Part,
    plan: Plan,
    from: usize,
    budget: usize,
) -> usize
    requires lies_in { LiesIn source mem.old × LiesIn destination mem.old }
    requires parts_apart { PartsApart source destination }
    requires ready { Ready (lent (bytes_of source mem.old)) plan (bytes_of destination mem.old) }
    requires from_bound { from < plan_total plan }
    ensures counted { result ≡ min budget (plan_total plan - from) }
    ensures written { mem.new ≡ moved_within plan source destination mem.old from result }
{
    let placed = Plan {
        home: source.start as usize + plan.home,
        base: destination.start as usize + plan.base,
        ..plan
    };
    advance(Origin::Inside, mem, placed, from, budget)
}
