// A tensor record by itself: 1 to 4, the sizes of its resolved strides and its span.
ghost use Rattle.std.specs.Prelude.{◌≡◌};
ghost use Rattle.faults.specs.Faults.{outcome};
ghost use Rattle.plane.specs.Planes.{source_fault, source_of};
ghost use Rattle.plane.specs.Private.{source_accepted};

use crate::helpers::element_size;
use crate::refusals::{Rank, check_shape};
use crate::signs::sizes;
use crate::strides::{bytes, resolve};
use crate::zeros::no_fault;
use crate::{Fault, Source, Tensor};

// What an accepted tensor record comes to, or 1 to 4.
pub(crate) fn resolved_source(t: Tensor) -> Result<Source, Fault>
    ensures { result ≡ outcome (source_fault t) (source_accepted t) }
{
    let rank = Rank::new(t.rank)?;
    if element_size(t.element_size) == 0 {
        return Err(Fault { status: 2, dim: 0 });
    }
    check_shape(rank, t.shape)?;
    let stride = resolve(4, rank, t.shape, sizes(t.stride))?;
    Ok(Source {
        fault: no_fault(),
        stride,
        span: bytes(rank, [0u32; 4], t.shape, stride, t.element_size),
    })
}

// The judgement of a tensor record by itself: the sizes of its resolved strides and its span, or 1 to 4.
pub fn source_of(t: Tensor) -> Source
    ensures { result ≡ source_of t }
{
    resolved_source(t).unwrap_or_else(|fault| Source {
        fault,
        stride: [0u32; 4],
        span: 0,
    })
}
