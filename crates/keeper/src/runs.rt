// Which runs there are, and the part of a memory that one is.
ghost use Rattle.std.specs.Prelude.{◌≡◌, ◌+◌, ◌≤◌, IfOk, IfErr, true, false};
ghost use Rattle.transfers.specs.Slots.{limit};
ghost use Rattle.keeper.specs.Blocks.{bad_block_count, bad_run};
ghost use Rattle.faults.specs.Faults.{fault, outcome};
ghost use Rattle.keeper.specs.Calls.{run_part, part_fault, part_of};

use crate::refusals::{NO_BLOCKS, NO_RUN};
use crate::{Part, Placed};
use faults::Fault;
use transfers::LIMIT;

// 31: whether n is not 1 to 64.
pub(crate) fn count_is_bad(n: u32) -> bool
    ensures { result ≡ bad_block_count n }
{
    (n < 1) | (64 < n)
}

// Or the run ends past the last block.
fn run_is_bad(first: u32, n: u32) -> bool
    ensures { result ≡ bad_run first n }
{
    count_is_bad(n) | (64 < first as u64 + n as u64)
}

// One of the runs that there are: the n blocks from first on.
#[derive(Clone, Copy)]
pub(crate) struct Run {
    pub(crate) first: u32,
    pub(crate) n: u32,
    ghost some: { 1 ≤ n },
    ghost inside: { first + n ≤ 64 },
}

impl Run {
    // 31: the run, if there is one.
    pub(crate) fn new(first: u32, n: u32) -> Result<Run, Fault>
        ensures made { IfOk result (λ r. (bad_run first n ≡ false) × (r.first ≡ first) × (r.n ≡ n)) }
        ensures refused { IfErr result (λ e. (bad_run first n ≡ true) × (e ≡ fault 31 0)) }
    {
        if run_is_bad(first, n) {
            return Err(NO_RUN);
        }
        Ok(Run { first, n })
    }

    // The part that it is, of a memory of length bytes.
    pub(crate) fn part(self, length: u64) -> Part
        requires { length ≤ limit }
        ensures { result ≡ run_part length self.first self.n }
    {
        let block = length / 64;
        Part {
            start: self.first as u64 * block,
            length: self.n as u64 * block,
        }
    }
}

// 17, 31: the part of a memory of length bytes that the n blocks from first on are.
fn placed(length: u64, first: u32, n: u32) -> Result<Part, Fault>
    ensures { result ≡ outcome (part_fault length first n) (run_part length first n) }
{
    if length < 64 {
        return Err(NO_BLOCKS);
    }
    if LIMIT < length {
        return Err(NO_BLOCKS);
    }
    let run = Run::new(first, n)?;
    Ok(run.part(length))
}

// Tells the part of a memory of length bytes that the n blocks from first on are.
pub fn part_of(length: u64, first: u32, n: u32) -> Placed
    ensures { result ≡ part_of length first n }
{
    match placed(length, first, n) {
        Ok(part) => Placed { status: 0, part },
        Err(fault) => Placed {
            status: fault.status,
            part: Part {
                start: 0,
                length: 0,
            },
        },
    }
}
