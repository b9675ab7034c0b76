// A run granted.
ghost use Rattle.std.specs.Prelude.{◌≡◌, Ok, Err, IfOk, IfErr};
ghost use Rattle.faults.specs.Faults.{outcome};
ghost use Rattle.keeper.specs.Blocks.{lowest_run};
ghost use Rattle.keeper.specs.Calls.{request_fault, request_of};

use crate::Granted;
use crate::refusals::{NO_FREE_RUN, NO_RUN};
use crate::runs::{Run, count_is_bad};
use crate::words::is_free;
use faults::Fault;

// 31, 32: the lowest run of n free neighbours.
fn lowest_run(word: u64, n: u32) -> Result<Run, Fault>
    ensures granted { IfOk result (λ r. (Ok r.first ≡ outcome (request_fault word n) (lowest_run word n)) × (r.n ≡ n)) }
    ensures refused { IfErr result (λ e. Err e ≡ outcome (request_fault word n) (lowest_run word n)) }
{
    if count_is_bad(n) {
        return Err(NO_RUN);
    }
    match (0..65 - n).find(|&first| is_free(word, first, n)) {
        Some(first) => Ok(Run { first, n }),
        None => Err(NO_FREE_RUN),
    }
}

// Takes the lowest run of n free neighbours.
pub fn request(word: u64, n: u32) -> Granted
    ensures { result ≡ request_of word n }
{
    match lowest_run(word, n) {
        Ok(run) => Granted {
            status: 0,
            first: run.first,
            word: run.taken_in(word),
        },
        Err(fault) => Granted {
            status: fault.status,
            first: 0,
            word,
        },
    }
}
