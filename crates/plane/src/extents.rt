// Kept counts and extents.
ghost use Rattle.std.specs.Prelude.{◌≡◌, ℕ, ◌+◌, ◌-◌, ◌≤◌, ◌<◌};
ghost use Rattle.plane.specs.Arrays.{at, or0};
ghost use Rattle.faults.specs.Faults.{lowest, outcome};
ghost use Rattle.plane.specs.Planes.{shape_at};
ghost use Rattle.plane.specs.Moves.{upward, extent, dst_extents, bad_extent};
ghost use Rattle.plane.specs.Private.{Countable, Extensive};

use crate::refusals::check_each;
use crate::{Config, Fault, Tensor};

// What is taken of a dimension: size 0 means all from the offset on.
fn taken(shape: u32, offset: u32, size: u32) -> u32
    requires { offset ≤ shape }
    ensures { result ≡ or0 size (shape - offset) }
{
    if size == 0 { shape - offset } else { size }
}

// How many are kept of m, one in each step, rounded up.
fn kept_count(m: u32, step: u32) -> u64
    requires { 0 < step }
    ensures { (result ≡ upward m step) × (result ≤ 8589934590) }
{
    (m as u64).div_ceil(step as u64)
}

fn padded(pre: u8, count: u64, post: u8) -> u64
    requires { count ≤ 8589934590 }
    ensures { result ≡ pre + count + post }
{
    (pre as u64) + count + (post as u64)
}

// The extent of source dimension d.
fn extent_at(t: Tensor, c: Config, d: usize) -> u64
    requires { (d < 4) × (at c.offset d ≤ shape_at t d) × (0 < at c.step d) }
    ensures { result ≡ extent t c d }
{
    let m = taken(t.shape[d], c.offset[d], c.size[d]);
    padded(c.pre[d], kept_count(m, c.step[d]), c.post[d])
}

// 10
pub(crate) fn check_extent(t: Tensor, c: Config) -> Result<(), Fault>
    requires { (t.rank ≤ 4) × ((d : ℕ) → d < t.rank → Countable t c d) }
    ensures { result ≡ outcome (lowest 10 t.rank (λ d. bad_extent (extent t c d))) tt }
{
    check_each(10, t.rank, |d| 65535 < extent_at(t, c, d))
}

// The extents in destination order. A loop that stores, so that the reading "source dimension k goes to perm[k]" is one word away from it
// (must-fail/perm_other_way).
pub(crate) fn dst_extents(t: Tensor, c: Config) -> [u32; 4]
    requires { (t.rank ≤ 4) × ((i : ℕ) → i < t.rank → at c.perm i < t.rank) × ((d : ℕ) → d < t.rank → Extensive t c d) }
    ensures { result ≡ dst_extents t c }
{
    let mut out = [0u32; 4];
    let n = t.rank;
    for i in 0..n {
        let k = i as usize;
        let d = c.perm[k] as usize;
        out[k] = extent_at(t, c, d) as u32;
    }
    out
}
