// A configuration for an accepted tensor record: 6 to 12, else the answer.
ghost use Rattle.std.specs.Prelude.{◌≡◌, ℕ, ◌≤◌, ◌<◌};
ghost use Rattle.faults.specs.Faults.{◌or_else◌, outcome};
ghost use Rattle.plane.specs.Moves.{dst_extents, config_fault, dst_fault, accepted};
ghost use Rattle.plane.specs.Private.{IsExtent};

use crate::extents::{check_extent, dst_extents};
use crate::refusals::{Rank, check_dst_offset, check_offset, check_perm, check_size, check_step};
use crate::strides::{bytes, resolve};
use crate::{Answer, Config, Fault, Tensor};

// 6 to 10
fn check_config(t: Tensor, c: Config) -> Result<(), Fault>
    requires { t.rank ≤ 4 }
    ensures { result ≡ outcome (config_fault t c) tt }
{
    let rank = Rank { n: t.rank };
    check_perm(rank, c.perm)?;
    check_offset(rank, t.shape, c.offset)?;
    check_size(rank, t.shape, c.offset, c.size)?;
    check_step(rank, c.step)?;
    check_extent(t, c)
}

// 11 and 12, else the answer. extent has the extents in destination order.
fn placement(t: Tensor, c: Config, extent: [u32; 4]) -> Result<Answer, Fault>
    requires { (t.rank ≤ 4) × (extent ≡ dst_extents t c) × ((i : ℕ) → i < t.rank → IsExtent extent i) }
    ensures { result ≡ outcome (dst_fault t c) (accepted t c) }
{
    let written = c.dst_stride;
    let rank = Rank { n: t.rank };
    let stride = resolve(11, rank, extent, written)?;
    check_dst_offset(rank, extent, stride, c.dst_offset)?;
    Ok(Answer {
        status: 0,
        dim: 0,
        rank: t.rank,
        element_size: t.element_size,
        extent,
        stride,
        need: bytes(rank, c.dst_offset, extent, stride, t.element_size),
    })
}

pub(crate) fn destination(t: Tensor, c: Config) -> Result<Answer, Fault>
    requires { t.rank ≤ 4 }
    ensures { result ≡ outcome (config_fault t c or_else dst_fault t c) (accepted t c) }
{
    check_config(t, c)?;
    placement(t, c, dst_extents(t, c))
}
