// What the rules say of a move: the answer of an accepted one, or what refuses it.
ghost use Rattle.std.specs.Prelude.{◌≡◌};
ghost use Rattle.faults.specs.Faults.{outcome};
ghost use Rattle.plane.specs.Moves.{move_fault, accepted};

use plane::{Answer, Config, Fault, Tensor};

// A move from a source of src_len bytes into a destination of dst_len bytes. The public answer has a number of refusal in every case: here
// it becomes a Result, once, and callers go on by `?`.
pub(crate) fn judged(t: Tensor, c: Config, src_len: usize, dst_len: usize) -> Result<Answer, Fault>
    ensures { result ≡ outcome (move_fault t c src_len dst_len) (accepted t c) }
{
    let a = plane::judge(t, c, src_len, dst_len);
    let is_refused = a.status != 0;
    if is_refused {
        return Err(Fault {
            status: a.status,
            dim: a.dim,
        });
    }
    Ok(a)
}
