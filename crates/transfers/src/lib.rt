// Four transfers over one memory: each is prepared, started, moved a stretch at a time, and released. No call here asks anything
// of its caller; a table that is handed in is looked at first, and refused where it is not sound.
#![tactic(auto)]

mod refusals; // why a call is refused
mod slots; // slots, and a table with one of them changed
mod sound; // whether a table is sound
mod calls; // fresh, prepare, start, step, release, poll

pub use mover::{Config, Job, Part, Tensor};

// The states of a slot. A table may be handed in with any number there; an enum would be tried from it in is_sound, and again in each
// call, with one case more that no sound table has.
pub const FREE: u8 = 0;

pub const PREPARED: u8 = 1;

pub const RUNNING: u8 = 2;

pub const DONE: u8 = 3;

// The longest memory that a table is made for.
pub const LIMIT: u64 = 2147483647;

// A transfer, or a place for one.
#[derive(Clone, Copy, PartialEq, Eq)]
pub struct Slot {
    pub state: u8,
    pub job: Job,
    pub moved: u64,
}

// Four slots, for a memory of length bytes.
#[derive(Clone, Copy)]
pub struct Table {
    pub length: u64,
    pub slots: [Slot; 4],
}

// The answers from here on are the paper's records, and no Results: a refusal hands back the table too (DECISIONS 31, 105).

// What fresh answers.
#[derive(Clone, Copy)]
pub struct FreshTable {
    pub status: u8,
    pub table: Table,
}

// What prepare answers: the slot's number as the handle, and the next table.
#[derive(Clone, Copy)]
pub struct Prepared {
    pub status: u8,
    pub dim: u8,
    pub handle: u32,
    pub table: Table,
}

// What start and release answer.
#[derive(Clone, Copy)]
pub struct Changed {
    pub status: u8,
    pub table: Table,
}

// What a step answers: how many elements it moved, and the next table.
#[derive(Clone, Copy)]
pub struct Stepped {
    pub status: u8,
    pub count: u64,
    pub table: Table,
}

// What a slot is, with how many elements are left; or the number of refusal, as the other answers have it.
#[derive(Clone, Copy)]
pub enum Poll {
    Free,
    Prepared(u64),
    Running(u64),
    Done,
    Refused(u8),
}
