// Element size and element count.
ghost use Rattle.std.specs.Prelude.{◌≡◌, ℕ, ◌+◌, ◌-◌, ◌≤◌, ◌<◌};
ghost use Rattle.plane.specs.Arrays.{at, product};
ghost use Rattle.plane.specs.Planes.{element_size};
ghost use Rattle.faults.specs.Faults.{outcome};
ghost use Rattle.plane.specs.Helpers.{count_fault, count_of, elements};

use crate::refusals::{Rank, check_shape};
use crate::{Count, Fault, Tensor};

// The element size in bytes, 1 to 4, and 0 for one that is not taken. No Option: the 0 is promised to callers outside.
pub fn element_size(size: u8) -> u8
    ensures { result ≡ element_size size }
{
    if (size < 1) | (4 < size) { 0 } else { size }
}

// The product of the shapes from a start dimension on. 64 bits hold it: there are four at most, of 65,535 at most.
fn product_from(rank: Rank, shape: [u32; 4], start: u8) -> u64
    requires { (d : ℕ) → d < rank.n → at shape d ≤ 65535 }
    ensures { result ≡ product (rank.n - start) (λ k. at shape (start + k)) }
{
    (start..rank.n).map(|d| shape[d as usize] as u64).product()
}

// The count, or 1, 3 or 16.
fn counted(t: Tensor, start: u32) -> Result<u64, Fault>
    ensures { result ≡ outcome (count_fault t start) (elements t start) }
{
    let rank = Rank::new(t.rank)?;
    check_shape(rank, t.shape)?;
    if (t.rank as u32) <= start {
        return Err(Fault { status: 16, dim: 0 });
    }
    Ok(product_from(rank, t.shape, start as u8))
}

// How many elements there are from a start dimension on; all of them from 0 on.
pub fn element_count(t: Tensor, start: u32) -> Count
    ensures { result ≡ count_of t start }
{
    match counted(t, start) {
        Ok(count) => Count {
            status: 0,
            dim: 0,
            count,
        },
        Err(Fault { status, dim }) => Count {
            status,
            dim,
            count: 0,
        },
    }
}
