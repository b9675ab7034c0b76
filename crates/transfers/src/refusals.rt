// Why a call on a table is refused: the numbers of this crate, none of which names a dimension, and those of a job.
ghost use Rattle.std.specs.Prelude.{◌≡◌};
ghost use Rattle.faults.specs.Faults.{outcome};
ghost use Rattle.mover.specs.Within.{job_fault, total_of};

use faults::Fault;
use mover::Job;

// The memory has not the table's length.
pub(crate) const OTHER_LENGTH: Fault = Fault { status: 17, dim: 0 };

// The table is not sound.
pub(crate) const UNSOUND: Fault = Fault { status: 18, dim: 0 };

// No slot is free.
pub(crate) const FULL: Fault = Fault { status: 19, dim: 0 };

// The job breaks the rule with another slot.
pub(crate) const CLASH: Fault = Fault { status: 22, dim: 0 };

// There is no transfer at the handle.
pub(crate) const NO_TRANSFER: Fault = Fault { status: 23, dim: 0 };

// The transfer is in another state.
pub(crate) const OTHER_STATE: Fault = Fault { status: 24, dim: 0 };

// How many elements a job moves over a memory of n bytes. The mover's answer has a number of refusal in every case: here it becomes a Result.
pub(crate) fn judged(n: usize, job: Job) -> Result<u64, Fault>
    ensures { result ≡ outcome (job_fault n job) (total_of job) }
{
    let verdict = mover::judge_job(n, job);
    if verdict.status != 0 {
        return Err(Fault {
            status: verdict.status,
            dim: verdict.dim,
        });
    }
    Ok(verdict.total)
}
