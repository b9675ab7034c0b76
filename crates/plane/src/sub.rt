// A part of a plane as a tensor of its own.
ghost use Rattle.std.specs.Prelude.{◌≡◌, ℕ, ◌+◌, ◌-◌, ◌*◌, ◌<◌};
ghost use Rattle.plane.specs.Arrays.{at, firsts};
ghost use Rattle.plane.specs.Signs.{is_down, at_z};
ghost use Rattle.faults.specs.Faults.{lowest, outcome};
ghost use Rattle.plane.specs.Planes.{shape_at, up, src_strides};
ghost use Rattle.plane.specs.Helpers.{bad_sub_size, rank_fault, sub_fault, lowest_in, sub_tensor_of};
ghost use Rattle.plane.specs.Good.{GoodSource};
ghost use Rattle.plane.specs.Private.{IsPart, units_fault, staying_of, sub_accepted};

use crate::entries::firsts;
use crate::refusals::{Rank, check_each, check_offset, size_is_bad};
use crate::signs::{is_down, with_signs};
use crate::strides::distance;
use crate::tensors::resolved_source;
use crate::{Fault, SubConfig, SubTensor, Tensor};

// 8: here a size of 0 is refused too.
fn check_sub_size(
    rank: Rank,
    shape: [u32; 4],
    offset: [u32; 4],
    size: [u32; 4],
) -> Result<(), Fault>
    ensures { result ≡ outcome (lowest 8 rank.n (λ d. bad_sub_size (at shape d) (at offset d) (at size d))) tt }
{
    check_each(
        8,
        rank.n,
        |d| (size[d] == 0) | size_is_bad(shape[d], offset[d], size[d]),
    )
}

// The dimensions that stay.
#[derive(Clone, Copy)]
struct Staying {
    shape: [u32; 4],
    stride: [i32; 4],
}

// 15, or what stays where unit dimensions are taken out, with their strides, from the first on, until excess of them are gone. A loop,
// since it fills two arrays and counts those that go.
fn without_units(rank: Rank, size: [u32; 4], stride: [i32; 4], excess: u8) -> Result<Staying, Fault>
    ensures { result ≡ outcome (units_fault rank.n (at size) excess) (staying_of rank.n (at size) (at_z stride) excess) }
{
    let mut shape = [0u32; 4];
    let mut out = [0i32; 4];
    let mut lacking = excess;
    let mut k: usize = 0;
    for d in 0..rank.n {
        let i = d as usize;
        if (size[i] == 1) & (0 < lacking) {
            lacking -= 1;
        } else {
            shape[k] = size[i];
            out[k] = stride[i];
            k += 1;
        }
    }
    if lacking != 0 {
        return Err(Fault { status: 15, dim: 0 });
    }
    Ok(Staying { shape, stride: out })
}

// How many strides up from the lowest element of a dimension the lowest of a part of it lies.
fn low(down: bool, shape: u32, offset: u32, size: u32) -> u32
    requires { IsPart shape offset size }
    ensures { result ≡ up down shape (lowest_in down offset size) }
{
    if down { shape - offset - size } else { offset }
}

// The same for each dimension.
fn lows(rank: Rank, stride: [i32; 4], shape: [u32; 4], offset: [u32; 4], size: [u32; 4]) -> [u32; 4]
    requires { (d : ℕ) → d < rank.n → IsPart (at shape d) (at offset d) (at size d) }
    ensures { result ≡ firsts rank.n (λ d. let down = is_down (at_z stride d) in up down (at shape d) (lowest_in down (at offset d) (at size d))) }
{
    firsts(
        rank.n,
        |d| low(is_down(stride[d]), shape[d], offset[d], size[d]),
    )
}

// 14 and 15, else the sub-tensor. sizes has the sizes of the resolved strides of the whole plane.
fn shrink(t: Tensor, s: SubConfig, sizes: [u32; 4]) -> Result<SubTensor, Fault>
    requires { (GoodSource t) × (sizes ≡ src_strides t) × ((d : ℕ) → d < t.rank → IsPart (shape_at t d) (at s.offset d) (at s.size d)) }
    ensures { result ≡ outcome (rank_fault t s) (sub_accepted t s) }
{
    if (s.rank == 0) | ((t.rank as u32) < s.rank) {
        return Err(Fault { status: 14, dim: 0 });
    }
    let rank = Rank { n: t.rank };
    let Staying { shape, stride } = without_units(
        rank,
        s.size,
        with_signs(t.stride, sizes),
        t.rank - (s.rank as u8),
    )?;
    let lowest = lows(rank, t.stride, t.shape, s.offset, s.size);
    Ok(SubTensor {
        status: 0,
        dim: 0,
        tensor: Tensor {
            rank: s.rank as u8,
            element_size: t.element_size,
            shape,
            stride,
        },
        byte: distance(rank, lowest, sizes) * (t.element_size as u64),
    })
}

// The sub-tensor, or 1 to 5, 7, 8, 14 or 15.
fn part_of(t: Tensor, s: SubConfig, src_len: usize) -> Result<SubTensor, Fault>
    ensures { result ≡ outcome (sub_fault t s src_len) (sub_accepted t s) }
{
    let whole = resolved_source(t)?;
    if (src_len as u64) < whole.span {
        return Err(Fault { status: 5, dim: 0 });
    }
    let rank = Rank { n: t.rank };
    check_offset(rank, t.shape, s.offset)?;
    check_sub_size(rank, t.shape, s.offset, s.size)?;
    shrink(t, s, whole.stride)
}

// The numbers of the part of a plane that a source of src_len bytes holds: its shape and strides, and the byte of its lowest element.
pub fn sub_tensor(t: Tensor, s: SubConfig, src_len: usize) -> SubTensor
    ensures { result ≡ sub_tensor_of t s src_len }
{
    part_of(t, s, src_len).unwrap_or_else(|fault| SubTensor {
        status: fault.status,
        dim: fault.dim,
        tensor: Tensor::zero(),
        byte: 0,
    })
}
