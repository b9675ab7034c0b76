// Slots, and a table with one of them changed.
ghost use Rattle.std.specs.Prelude.{◌≡◌, ◌<◌, eqb, ltb};
ghost use Rattle.std.specs.List.{position};
ghost use Rattle.faults.specs.Faults.{outcome, when};
ghost use Rattle.transfers.specs.Slots.{free_slot, fresh_table, slot_at, with_slot};

use crate::refusals::NO_TRANSFER;
use crate::{FREE, Slot, Table};
use faults::Fault;
use mover::{Config, Job, Part, Tensor};

impl Slot {
    // A free slot is all zero.
    pub(crate) fn free() -> Slot
        ensures { result ≡ free_slot }
    {
        let part = Part {
            start: 0,
            length: 0,
        };
        let job = Job {
            source: part,
            destination: part,
            tensor: Tensor::zero(),
            config: Config::zero(),
        };
        Slot {
            state: FREE,
            job,
            moved: 0,
        }
    }
}

impl Table {
    // Four free slots, for a memory of length bytes.
    pub(crate) fn empty(length: u64) -> Table
        ensures { result ≡ fresh_table length }
    {
        Table {
            length,
            slots: [Slot::free(); 4],
        }
    }

    // 23: the slot of a handle.
    pub(crate) fn slot(self, handle: u32) -> Result<Slot, Fault>
        ensures { result ≡ outcome (when 23 0 (ltb 3 handle)) (slot_at self handle) }
    {
        match self.slots.get(handle as usize) {
            Some(slot) => Ok(*slot),
            None => Err(NO_TRANSFER),
        }
    }

    pub(crate) fn with_slot(self, handle: u32, slot: Slot) -> Table
        requires { handle < 4 }
        ensures { result ≡ with_slot self handle slot }
    {
        let mut changed = self;
        changed.slots[handle as usize] = slot;
        changed
    }

    // Where the lowest free slot is.
    pub(crate) fn lowest_free(self) -> Option<usize>
        ensures { result ≡ position (λ s. eqb s.state 0) self.slots }
    {
        self.slots.iter().position(|slot| slot.state == FREE)
    }
}
