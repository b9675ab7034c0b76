// The loops of a move over its layers, band by band. What is no band, a part of a row or a few elements, goes by runs.
ghost use Rattle.std.specs.Prelude.{◌≡◌, ◌-◌, ◌<◌, min};
ghost use Rattle.mover.specs.Private.Elements.{plan_total, moved_from};
ghost use Rattle.mover.specs.Private.Ready.{Ready};

use crate::alike::kept;
use crate::bands::{band_at, behind, frame_of, move_band};
use crate::elements::Origin;
use crate::engine::by_runs;
use crate::plan::Plan;
use crate::spots::{next_layer, next_row, next_slab};
use crate::start::begin;

// Writes the elements numbered from, from + 1, .. and tells how many: the budget, or what is left. The form of the loops is the paper's,
// as in `by_runs`.
pub(crate) fn by_bands(
    origin: Origin<'_>,
    dst: &mut [u8],
    plan: Plan,
    from: usize,
    budget: usize,
) -> usize
    requires ready { Ready origin plan dst.old }
    requires from_bound { from < plan_total plan }
    ensures counted { result ≡ min budget (plan_total plan - from) }
    ensures written { dst.new ≡ moved_from origin.entry plan dst.old from result }
{
    let start = begin(plan, from);
    let frame = frame_of(plan);
    let mut first1 = start.c1; // where the coordinate begins: in the next slabs at 0
    let mut c2 = start.c2;
    let mut c3 = start.c3;
    let mut spots = start.spots;
    let mut left = budget;
    'all: for c0 in start.c0..plan.d0.extent {
        let kept0 = kept(true, plan.d0, c0);
        for c1 in first1..plan.d1.extent {
            let kept1 = kept(kept0, plan.d1, c1);
            while c2 < plan.d2.extent {
                if left == 0 {
                    break 'all;
                }
                if c3 == 0 {
                    if let Some(band) = band_at(plan, frame, kept1, c2, left) {
                        move_band(origin, dst, plan, frame, spots.row, band);
                        c2 += band.rows;
                        left -= band.elements;
                        spots = behind(spots, plan.d2, c2);
                        continue;
                    }
                }
                let n = (plan.d3.extent - c3).min(left);
                by_runs(origin, dst, plan, from + (budget - left), n);
                left -= n;
                if left == 0 {
                    break 'all;
                }
                c3 = 0;
                c2 += 1;
                spots = next_row(spots, plan.d2, c2);
            }
            c2 = 0;
            spots = next_layer(spots, plan.d1, c1 + 1);
        }
        first1 = 0;
        spots = next_slab(spots, plan.d0, c0 + 1);
    }
    budget - left
}
