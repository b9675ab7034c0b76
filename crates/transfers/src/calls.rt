// The calls on a table: each but fresh and poll looks at the memory's length first, and then whether the table is sound.
ghost use Rattle.std.specs.Prelude.{◌≡◌, ◌+◌, ◌≤◌, true, length};
ghost use Rattle.faults.specs.Faults.{outcome};
ghost use Rattle.transfers.specs.Slots.{slot_at, slot_sound, lowest_free};
ghost use Rattle.transfers.specs.Calls.{fresh_of, open_fault, call_fault, prepare_fault, prepare_of, start_of, release_of};
ghost use Rattle.transfers.specs.Calls.{later, left, step_of, step_memory, poll_fault, poll_of, poll_slot, poll_numbers};
ghost use Rattle.mover.specs.Within.{job_fault, total_of};

use crate::refusals::{CLASH, FULL, NO_TRANSFER, OTHER_LENGTH, OTHER_STATE, UNSOUND, judged};
use crate::{
    Changed, DONE, FREE, FreshTable, LIMIT, PREPARED, Poll, Prepared, RUNNING, Slot, Stepped, Table,
};
use faults::Fault;
use mover::Job;

impl Slot {
    // A running slot after count further elements, over a memory of n bytes: done where none is left.
    fn later(self, n: usize, count: u64) -> Slot
        requires { ((job_fault n self.job).status ≡ 0) × (self.moved + count ≤ total_of self.job) }
        ensures { result ≡ later self count }
    {
        let verdict = mover::judge_job(n, self.job);
        let moved = self.moved + count;
        Slot {
            state: if moved == verdict.total {
                DONE
            } else {
                RUNNING
            },
            moved,
            ..self
        }
    }

    // How many elements a slot that is not free has left, over a memory of n bytes.
    fn left(self, n: usize) -> u64
        requires { ((job_fault n self.job).status ≡ 0) × (self.moved ≤ total_of self.job) }
        ensures { result ≡ left self }
    {
        let verdict = mover::judge_job(n, self.job);
        verdict.total - self.moved
    }

    // What a poll of a sound slot tells, over a memory of n bytes.
    fn told(self, n: usize) -> Poll
        requires { slot_sound n self ≡ true }
        ensures { result ≡ poll_slot self }
    {
        if self.state == FREE {
            return Poll::Free;
        }
        let left = self.left(n);
        match self.state {
            PREPARED => Poll::Prepared(left),
            RUNNING => Poll::Running(left),
            _ => Poll::Done,
        }
    }
}

// The checks of the calls, in the paper's order.
impl Table {
    // 17, 18: whether the table may be called on over a memory of n bytes.
    fn opened(self, n: usize) -> Result<(), Fault>
        ensures { result ≡ outcome (open_fault self n) tt }
    {
        if n as u64 != self.length {
            return Err(OTHER_LENGTH);
        }
        if !self.is_sound() {
            return Err(UNSOUND);
        }
        Ok(())
    }

    // 17, 18, 19, 20, 1 to 13, 34, 21, 22: the slot that a job may take.
    fn room_for(self, n: usize, job: Job) -> Result<u32, Fault>
        ensures { result ≡ outcome (prepare_fault self n job) (lowest_free self) }
    {
        self.opened(n)?;
        let Some(handle) = self.lowest_free() else {
            return Err(FULL);
        };
        judged(n, job)?;
        if self.clashes(job, 4) {
            return Err(CLASH);
        }
        Ok(handle as u32)
    }

    // 17, 18, 23, 24: the slot of a transfer that is in the state want.
    fn called(self, n: usize, handle: u32, want: u8) -> Result<Slot, Fault>
        ensures { result ≡ outcome (call_fault self n handle want) (slot_at self handle) }
    {
        self.opened(n)?;
        let slot = self.slot(handle)?;
        let state = slot.state;
        if state == FREE {
            return Err(NO_TRANSFER);
        }
        if state != want {
            return Err(OTHER_STATE);
        }
        Ok(slot)
    }

    // 18, 23: the slot that a poll tells of.
    fn polled(self, handle: u32) -> Result<Slot, Fault>
        ensures { result ≡ outcome (poll_fault self handle) (slot_at self handle) }
    {
        if !self.is_sound() {
            return Err(UNSOUND);
        }
        self.slot(handle)
    }
}

impl Table {
    // A table of four free slots, for a memory of length bytes.
    pub fn fresh(length: u64) -> FreshTable
        ensures { result ≡ fresh_of length }
    {
        if LIMIT < length {
            return FreshTable {
                status: 17,
                table: Table::empty(0),
            };
        }
        FreshTable {
            status: 0,
            table: Table::empty(length),
        }
    }

    // Takes the lowest free slot for a job. It moves nothing.
    pub fn prepare(self, mem: &[u8], job: Job) -> Prepared
        ensures { result ≡ prepare_of self (length mem.now) job }
    {
        match self.room_for(mem.len(), job) {
            Ok(handle) => {
                let slot = Slot {
                    state: PREPARED,
                    job,
                    moved: 0,
                };
                Prepared {
                    status: 0,
                    dim: 0,
                    handle,
                    table: self.with_slot(handle, slot),
                }
            }
            Err(fault) => Prepared {
                status: fault.status,
                dim: fault.dim,
                handle: 0,
                table: self,
            },
        }
    }

    // Makes a prepared transfer running.
    pub fn start(self, mem: &[u8], handle: u32) -> Changed
        ensures { result ≡ start_of self (length mem.now) handle }
    {
        match self.called(mem.len(), handle, PREPARED) {
            Ok(mut slot) => {
                slot.state = RUNNING;
                Changed {
                    status: 0,
                    table: self.with_slot(handle, slot),
                }
            }
            Err(fault) => Changed {
                status: fault.status,
                table: self,
            },
        }
    }

    // Moves budget further elements of a running transfer, or what is left.
    pub fn step(self, mem: &mut [u8], handle: u32, budget: u64) -> Stepped
        ensures answered { result ≡ step_of self (length mem.old) handle budget }
        ensures written { mem.new ≡ step_memory self handle budget mem.old }
    {
        let n = mem.len();
        match self.called(n, handle, RUNNING) {
            Ok(slot) => {
                let advanced = mover::advance(mem, slot.job, slot.moved, budget);
                let count = advanced.count;
                Stepped {
                    status: 0,
                    count,
                    table: self.with_slot(handle, slot.later(n, count)),
                }
            }
            Err(fault) => Stepped {
                status: fault.status,
                count: 0,
                table: self,
            },
        }
    }

    // Frees the slot of a transfer that is done.
    pub fn release(self, mem: &[u8], handle: u32) -> Changed
        ensures { result ≡ release_of self (length mem.now) handle }
    {
        match self.called(mem.len(), handle, DONE) {
            Ok(_) => Changed {
                status: 0,
                table: self.with_slot(handle, Slot::free()),
            },
            Err(fault) => Changed {
                status: fault.status,
                table: self,
            },
        }
    }

    // Tells what a slot is.
    pub fn poll(self, handle: u32) -> Poll
        ensures answered { result ≡ poll_of self handle }
        ensures numbered { poll_numbers result ≡ poll_numbers (poll_of self handle) }
    {
        match self.polled(handle) {
            Ok(slot) => slot.told(self.length as usize),
            Err(fault) => Poll::Refused(fault.status),
        }
    }
}
