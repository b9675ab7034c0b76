// A whole move between two lent slices.
ghost use Rattle.std.specs.Prelude.{◌≡◌, length};
ghost use Rattle.plane.specs.Moves.{judge_of};
ghost use Rattle.mover.specs.Moved.{move_memory};

use crate::elements::Origin;
use crate::plan::{plan_of, total};
use crate::stretch::advance;
use crate::verdicts::judged;
use plane::{Answer, Config, Tensor};

// Moves the plane t from src into dst as c says, and answers; a refused move changes nothing.
pub fn move_plane(t: Tensor, c: Config, src: &[u8], dst: &mut [u8]) -> Answer
    ensures answered { result ≡ judge_of t c (length src.now) (length dst.old) }
    ensures written { dst.new ≡ move_memory t c src.now dst.old }
{
    match judged(t, c, src.len(), dst.len()) {
        Ok(a) => {
            advance(Origin::Lent(src), dst, plan_of(t, c, a), 0, total(a));
            a
        }
        Err(f) => Answer::refused(f),
    }
}
