// The word: how many blocks are free, and runs of blocks as bits. Block 0 is the lowest bit, and 1 is taken.
ghost use Rattle.std.specs.Prelude.{◌≡◌, ◌+◌, ◌-◌, ◌^◌, ◌≤◌};
ghost use Rattle.keeper.specs.Blocks.{free_blocks, free_before_first_taken, all_free, all_taken, with_run, without_run};

use crate::runs::Run;

// How many blocks are free.
pub fn free_blocks(word: u64) -> u32
    ensures { result ≡ free_blocks word }
{
    64 - u64::count_ones(word)
}

// How many blocks lie free before the first taken one, 64 if none is taken.
pub fn free_before_first_taken(word: u64) -> u32
    ensures { result ≡ free_before_first_taken word }
{
    u64::trailing_zeros(word)
}

// The n lowest bits.
fn ones(n: u32) -> u64
    requires { (1 ≤ n) × (n ≤ 64) }
    ensures { result ≡ 2 ^ n - 1 }
{
    0xffff_ffff_ffff_ffff >> (64 - n)
}

// Whether each of the n blocks from first on is free. It takes numbers and no run, since it is asked of each place where one may be.
pub(crate) fn is_free(word: u64, first: u32, n: u32) -> bool
    requires { (1 ≤ n) × (first + n ≤ 64) }
    ensures { result ≡ all_free word first n }
{
    (word >> first) & ones(n) == 0
}

impl Run {
    // Whether each of its blocks is taken.
    pub(crate) fn is_taken(self, word: u64) -> bool
        ensures { result ≡ all_taken word self.first self.n }
    {
        let run = ones(self.n);
        (word >> self.first) & run == run
    }

    // The word with them taken.
    pub(crate) fn taken_in(self, word: u64) -> u64
        ensures { result ≡ with_run word self.first self.n }
    {
        word | (ones(self.n) << self.first)
    }

    // The word with them free.
    pub(crate) fn freed_in(self, word: u64) -> u64
        ensures { result ≡ without_run word self.first self.n }
    {
        word & !(ones(self.n) << self.first)
    }
}
