// Whether a table is sound.
ghost use Rattle.std.specs.Prelude.{◌≡◌, ◌≤◌, ◌<◌, take};
ghost use Rattle.std.specs.List.{list_any};
ghost use Rattle.transfers.specs.Slots.{breaks, moved_right, slot_sound, sound_at, table_sound};

use crate::refusals::judged;
use crate::{DONE, FREE, LIMIT, PREPARED, RUNNING, Slot, Table};
use mover::{Job, meets};

// Whether the destination part of one meets a part of the other.
fn breaks(j: Job, k: Job) -> bool
    ensures { result ≡ breaks j k }
{
    meets(j.destination, k.destination)
        | meets(j.destination, k.source)
        | meets(j.source, k.destination)
}

// Whether the count of elements moved is right for the state.
fn moved_is_right(state: u8, moved: u64, total: u64) -> bool
    ensures { result ≡ moved_right state moved total }
{
    match state {
        PREPARED => moved == 0,
        RUNNING => moved < total,
        DONE => moved == total,
        _ => false,
    }
}

impl Slot {
    // Whether a slot by itself is sound, for a memory of length bytes.
    fn is_sound(self, length: u64) -> bool
        ensures { result ≡ slot_sound length self }
    {
        if self.state == FREE {
            return self == Slot::free();
        }
        match judged(length as usize, self.job) {
            Ok(total) => moved_is_right(self.state, self.moved, total),
            Err(_) => false,
        }
    }
}

impl Table {
    // Whether a job breaks the rule with one of the first n slots.
    pub(crate) fn clashes(&self, job: Job, n: usize) -> bool
        requires { n ≤ 4 }
        ensures { result ≡ list_any (λ s. breaks job s.job) (take n self.now.slots) }
    {
        self.slots[..n].iter().any(|slot| breaks(job, slot.job))
    }

    // Whether the slot at i is sound, and breaks the rule with none before it.
    fn is_sound_at(&self, i: usize) -> bool
        requires { i < 4 }
        ensures { result ≡ sound_at self.now i }
    {
        let slot = self.slots[i];
        slot.is_sound(self.length) && !self.clashes(slot.job, i)
    }

    pub(crate) fn is_sound(&self) -> bool
        ensures { result ≡ table_sound self.now }
    {
        self.length <= LIMIT && (0..4).all(|i| self.is_sound_at(i))
    }
}
