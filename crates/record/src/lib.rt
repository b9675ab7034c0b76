// The move record: a tensor record and a configuration as 131 bytes, or with a fill as 135, read and written. No call here asks
// anything of its caller or sets memory aside.
#![tactic(auto)]

mod layout; // where each field stands
mod numbers; // groups of four numbers, to and from bytes
mod versions; // which version a record is, and how long
mod checks; // 1, 2 and 28, which reading and writing share
mod reader; // a record read
mod writer; // a record written

pub use checks::fields_fault;
pub use layout::{FILLED_LENGTH, LENGTH, VERSION_1, VERSION_2};
use plane::{Config, Tensor};
pub use reader::read;
pub use versions::{length_for, length_in};
pub use writer::write;

// What bytes hold: status 0 with the fields, or a number of refusal with its dimension and zeros besides. `read` promises these numbers, and
// the theorems on `read_of` speak of them, so the public answer is no Result.
#[derive(Clone, Copy)]
pub struct Reading {
    pub status: u8,
    pub dim: u8,
    pub tensor: Tensor,
    pub config: Config,
}
