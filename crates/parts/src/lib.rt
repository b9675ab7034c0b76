// Parts of a memory: what the mover moves between, and what the theory of transfers is about. No code: the type, and what is said of it.
#![tactic(auto)]

// A part of a memory: length bytes from the byte start on.
#[derive(Clone, Copy, PartialEq, Eq)]
pub struct Part {
    pub start: u64,
    pub length: u64,
}
