// The mover: an accepted move puts into each destination element the source element, or the fill in padding, that the record names,
// and changes no other byte. Between two lent slices, or between two parts of one memory, from any element on.
#![tactic(auto)]

mod verdicts; // what the rules say of a move
mod plan; // an accepted move as the engine wants it
mod spots; // where an element stands, and where the next row, layer and slab start
mod start; // where a step begins
mod folded; // dimensions that are one
mod alike; // where neighbours end that are all kept or all padding
mod elements; // elements one by one, copied or of padding
mod arrays; // bytes that go through an array
mod shuffles; // arrays in another order
mod copies; // bytes side by side
mod courses; // a run of elements
mod patches; // rows and columns of elements
mod tiles; // a few rows and columns at once
mod strips; // tile by tile
mod ways; // which way a patch goes
mod bands; // whole rows that are moved together
mod engine; // the loops over four destination coordinates, by runs
mod layers; // the same by bands
mod stretch; // a stretch of a move: which of the two
mod moves; // a whole move between two lent slices
mod within; // a move between two parts of one memory, a stretch at a time
mod sub; // a sub-tensor of a lent source
mod pixels; // one element, before anything is moved
pub mod plain; // the plain engine, for readers: the same two calls

pub use moves::move_plane;
pub use parts::Part;
pub use pixels::pixel;
pub use plane::{Answer, Config, Tensor};
pub use sub::{sub_part, sub_tensor};
pub use within::{advance, judge_job, meets};

// A move between two parts of one memory.
#[derive(Clone, Copy, PartialEq, Eq)]
pub struct Job {
    pub source: Part,
    pub destination: Part,
    pub tensor: Tensor,
    pub config: Config,
}

// The answers from here on are the paper's records, and no Results: of a refused one the zeros are promised too (DECISIONS 105).

// What a job comes to over a memory: a number of refusal with its dimension, or how many elements there are to move.
#[derive(Clone, Copy)]
pub struct Verdict {
    pub status: u8,
    pub dim: u8,
    pub total: u64,
}

// How many elements were moved.
#[derive(Clone, Copy)]
pub struct Advanced {
    pub status: u8,
    pub dim: u8,
    pub count: u64,
}

// One element of a destination: its bytes, 0 past the element size, and whether it is padding.
#[derive(Clone, Copy)]
pub struct PixelAnswer {
    pub status: u8,
    pub dim: u8,
    pub bytes: [u8; 4],
    pub padding: bool,
}
