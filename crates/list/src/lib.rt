// A list of moves, as a camera appends them for a burst: a head of 7 bytes, which says how many there are, and then that many move
// records. Read from lent bytes, and written into a lent buffer. No call here asks anything of its caller or sets memory aside,
// and a count is believed only where it agrees with the bytes. The calls promise their answers as numbers, and the theorems speak
// of them, so the public answers are no Result and no Option.
#![tactic(auto)]

mod layout; // where mark, version and count stand
mod head; // what is wrong with a list, and how many records it has
mod records; // one record of a list, by its number
mod reader; // a reader, which keeps the lent bytes and its place together
mod writer; // a list started and appended to

pub use head::{list_fault, record_count};
pub use layout::HEAD;
pub use reader::{first_two, open};
use record::Reading;
pub use records::{place_after, record_at};
pub use writer::{append, start};

// A record with its number, from 0 on. Past the last record, and in a refused list, the status is 39 and all else is 0.
#[derive(Clone, Copy)]
pub struct Numbered {
    pub number: usize,
    pub reading: Reading,
}

// A reader of a list: the bytes as they were lent, and the number of the record that is next.
#[derive(Clone, Copy)]
pub struct ListReader<'a> {
    bytes: &'a [u8],
    next: usize,
}

// Status 0 with how many records there are, or a number of refusal and none; and the reader, at the first.
#[derive(Clone, Copy)]
pub struct Opened<'a> {
    pub status: u8,
    pub count: usize,
    pub reader: ListReader<'a>,
}

// What opening a list answers, and the first two records.
#[derive(Clone, Copy)]
pub struct FirstTwo {
    pub status: u8,
    pub count: usize,
    pub first: Numbered,
    pub second: Numbered,
}

// Status 0 with how many bytes the list has now, or a number of refusal with its dimension and length 0.
#[derive(Clone, Copy)]
pub struct Appended {
    pub status: u8,
    pub dim: u8,
    pub length: usize,
}
