// A run given back: all its blocks are taken, and no byte of it is in use.
ghost use Rattle.std.specs.Prelude.{◌≡◌};
ghost use Rattle.std.specs.List.{list_any};
ghost use Rattle.faults.specs.Faults.{outcome};
ghost use Rattle.keeper.specs.Blocks.{without_run};
ghost use Rattle.keeper.specs.Calls.{uses, table_fault, give_back_fault, give_back_of};

use crate::refusals::{NO_BLOCKS, NOT_TO_BE_FREED};
use crate::runs::Run;
use crate::{GivenBack, Part, Table};
use faults::Fault;
use mover::meets;
use transfers::{FREE, Poll, Slot};

// Whether a slot is not free and has a byte of the part, in its source or in its destination.
fn uses(slot: Slot, part: Part) -> bool
    ensures { result ≡ uses slot part }
{
    let job = slot.job;
    (slot.state != FREE) & (meets(part, job.source) | meets(part, job.destination))
}

// Whether a slot of the table has a byte of the part.
fn in_use(table: Table, part: Part) -> bool
    ensures { result ≡ list_any (λ s. uses s part) table.slots }
{
    table.slots.iter().any(|slot| uses(*slot, part))
}

// 17, 18: whether blocks may be given back over the memory of a table. Whether the table is sound, a poll tells.
fn opened(table: Table) -> Result<(), Fault>
    ensures { result ≡ outcome (table_fault table) tt }
{
    if table.length < 64 {
        return Err(NO_BLOCKS);
    }
    let told = table.poll(0);
    match told {
        Poll::Refused(status) => Err(Fault { status, dim: 0 }),
        _ => Ok(()),
    }
}

// 17, 18, 31, 33: the word with the n blocks from first on free, if they may be given back.
fn returned(table: Table, word: u64, first: u32, n: u32) -> Result<u64, Fault>
    ensures { result ≡ outcome (give_back_fault table word first n) (without_run word first n) }
{
    opened(table)?;
    let run = Run::new(first, n)?;
    if !run.is_taken(word) {
        return Err(NOT_TO_BE_FREED);
    }
    if in_use(table, run.part(table.length)) {
        return Err(NOT_TO_BE_FREED);
    }
    Ok(run.freed_in(word))
}

// Makes the n blocks from first on free again.
pub fn give_back(table: Table, word: u64, first: u32, n: u32) -> GivenBack
    ensures { result ≡ give_back_of table word first n }
{
    match returned(table, word, first, n) {
        Ok(word) => GivenBack { status: 0, word },
        Err(fault) => GivenBack {
            status: fault.status,
            word,
        },
    }
}
