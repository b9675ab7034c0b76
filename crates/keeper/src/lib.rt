// Room in a working memory: which of its 64 blocks are taken, as one word that the caller keeps. Calls take the word by value; each that
// changes it hands back the one for the next call. No call asks anything of its caller, and none changes a table or a memory.
#![tactic(auto)]

mod refusals; // why a call is refused
mod words; // the word: how many blocks are free, and runs of blocks
mod runs; // which runs there are, and the part of a memory that one is
mod grants; // a run granted
mod returns; // a run given back

pub use grants::request;
pub use returns::give_back;
pub use runs::part_of;
pub use transfers::{Part, Table};
pub use words::{free_before_first_taken, free_blocks};

// The answers from here on are the paper's records, and no Results: a refusal hands back the word too, and zeros are promised of it
// (DECISIONS 105).

// What a request answers: the first block of the run, and the word with it taken.
#[derive(Clone, Copy)]
pub struct Granted {
    pub status: u8,
    pub first: u32,
    pub word: u64,
}

// What giving back answers: the word with the run free.
#[derive(Clone, Copy)]
pub struct GivenBack {
    pub status: u8,
    pub word: u64,
}

// What part_of answers: the part of the memory that the run is.
#[derive(Clone, Copy)]
pub struct Placed {
    pub status: u8,
    pub part: Part,
}
