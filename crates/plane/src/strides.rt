// Strides resolved outward, and the bytes that a box of elements reaches over.
ghost use Rattle.std.specs.Prelude.{◌≡◌, ℕ, ◌+◌, ◌-◌, ◌*◌, ◌≤◌, ◌<◌};
ghost use Rattle.plane.specs.Arrays.{at, firsts, sum, or0};
ghost use Rattle.faults.specs.Faults.{outward, outcome};
ghost use Rattle.plane.specs.Planes.{bad_stride_at, strides};
ghost use Rattle.plane.specs.Private.{reach, IsBox};

use crate::Fault;
use crate::entries::firsts;
use crate::refusals::Rank;

// Stride 0 means the inner product.
fn resolved(stride: u32, inner: u64) -> u64
    ensures { result ≡ or0 stride inner }
{
    if stride == 0 { inner } else { stride as u64 }
}

// The whole product, which 64 bits hold. `mover` has one like it: one for both would be a public call.
pub(crate) fn times(a: u32, b: u32) -> u64
    ensures { (result ≡ a * b) × (result ≤ a * 4294967295) }
{
    (a as u64) * (b as u64)
}

// From the last dimension outward; refuses with that number, 4 for a source and 11 for a destination, the first that is met. A loop, since
// it takes two values from a turn to the next: the strides so far and the inner product.
pub(crate) fn resolve(
    status: u8,
    rank: Rank,
    shape: [u32; 4],
    stride: [u32; 4],
) -> Result<[u32; 4], Fault>
    requires { 0 < status }
    ensures { result ≡ outcome (outward status rank.n (bad_stride_at rank.n (at shape) (at stride))) (strides rank.n (at shape) (at stride)) }
{
    let mut out = [0u32; 4];
    let mut inner: u64 = 1;
    for dim in (0..rank.n).rev() {
        let d = dim as usize;
        let s = resolved(stride[d], inner);
        if (s < inner) | (2147483647 < s) {
            return Err(Fault { status, dim });
        }
        out[d] = s as u32;
        inner = times(s as u32, shape[d]);
    }
    Ok(out)
}

// The sum of count x stride.
pub(crate) fn distance(rank: Rank, count: [u32; 4], stride: [u32; 4]) -> u64
    requires { (d : ℕ) → d < rank.n → at count d ≤ 131072 }
    ensures { (result ≡ sum rank.n (λ d. at count d * at stride d)) × (result ≤ 4 * (131072 * 4294967295)) }
{
    (0..rank.n as usize)
        .map(|d| times(count[d], stride[d]))
        .sum()
}

// The last coordinates of a box of these extents that starts at these offsets.
fn last(rank: Rank, offset: [u32; 4], extent: [u32; 4]) -> [u32; 4]
    requires { (d : ℕ) → d < rank.n → IsBox offset extent d }
    ensures { result ≡ firsts rank.n (λ d. at offset d + at extent d - 1) }
{
    firsts(rank.n, |d| offset[d] + extent[d] - 1)
}

// The bytes up to the end of the last element of such a box.
pub(crate) fn bytes(
    rank: Rank,
    offset: [u32; 4],
    extent: [u32; 4],
    stride: [u32; 4],
    size: u8,
) -> u64
    requires { (d : ℕ) → d < rank.n → IsBox offset extent d }
    ensures { result ≡ reach rank.n (at offset) (at extent) (at stride) * size }
{
    (1 + distance(rank, last(rank, offset, extent), stride)) * (size as u64)
}
