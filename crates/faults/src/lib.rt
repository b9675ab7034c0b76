// Refusals: a number with the dimension that it names. What the crates above promise of theirs, that each is given exactly in its
// case and order and that a contract leaves no outcome open, is said here once, for rules of any kind.
#![tactic(auto)]

// A number of refusal and the dimension that it names; number 0 is no fault. A number and no enum: it is the paper's, and stands in every
// public answer.
#[derive(Clone, Copy)]
pub struct Fault {
    pub status: u8,
    pub dim: u8,
}
