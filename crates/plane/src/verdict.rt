// The whole of a move, from the record, the configuration and the two lengths.
ghost use Rattle.std.specs.Prelude.{◌≡◌};
ghost use Rattle.faults.specs.Faults.{outcome};
ghost use Rattle.plane.specs.Moves.{accepted, room_fault, room_of, move_fault, judge_of};
ghost use Rattle.plane.specs.Private.{room_accepted};

use crate::destination::destination;
use crate::tensors::resolved_source;
use crate::{Answer, Config, Fault, RoomAnswer, Tensor};

// What an accepted room question answers, or 1 to 4 and 6 to 12.
fn asked(t: Tensor, c: Config) -> Result<RoomAnswer, Fault>
    ensures { result ≡ outcome (room_fault t c) (room_accepted t c) }
{
    let source = resolved_source(t)?;
    let answer = destination(t, c)?;
    Ok(RoomAnswer {
        answer,
        span: source.span,
    })
}

// The room question: what a move would answer if its source and its destination were long enough. Never 5 or 13. The need is what the
// record asks for, and may be more than any machine has: judge by the most that you would lend.
pub fn room(t: Tensor, c: Config) -> RoomAnswer
    ensures { result ≡ room_of t c }
{
    asked(t, c).unwrap_or_else(|fault| RoomAnswer {
        answer: Answer::refused(fault),
        span: 0,
    })
}

// The answer of an accepted move, or 1 to 13.
fn judged(t: Tensor, c: Config, src_len: usize, dst_len: usize) -> Result<Answer, Fault>
    ensures { result ≡ outcome (move_fault t c src_len dst_len) (accepted t c) }
{
    let source = resolved_source(t)?;
    if (src_len as u64) < source.span {
        return Err(Fault { status: 5, dim: 0 });
    }
    let answer = destination(t, c)?;
    if (dst_len as u64) < answer.need {
        return Err(Fault { status: 13, dim: 0 });
    }
    Ok(answer)
}

// The answer of a move from a source of src_len bytes into a destination of dst_len bytes.
pub fn judge(t: Tensor, c: Config, src_len: usize, dst_len: usize) -> Answer
    ensures { result ≡ judge_of t c src_len dst_len }
{
    judged(t, c, src_len, dst_len).unwrap_or_else(Answer::refused)
}
