// All zero: a tensor record, a configuration, the number and dimension where nothing is refused, and a refused answer besides these.
ghost use Rattle.std.specs.Prelude.{◌≡◌};
ghost use Rattle.faults.specs.Faults.{none};
ghost use Rattle.plane.specs.Planes.{zero_tensor};
ghost use Rattle.plane.specs.Settings.{zero_config};
ghost use Rattle.plane.specs.Moves.{refused};

use crate::{Answer, Config, Fault, Tensor};

// No fault, for the public answers that hold one also where nothing is refused (`Source`).
pub(crate) fn no_fault() -> Fault
    ensures { result ≡ none }
{
    Fault { status: 0, dim: 0 }
}

impl Tensor {
    // A tensor record that is all zero.
    pub fn zero() -> Tensor
        ensures { result ≡ zero_tensor }
    {
        Tensor {
            rank: 0,
            element_size: 0,
            shape: [0u32; 4],
            stride: [0i32; 4],
        }
    }
}

impl Config {
    // A configuration that is all zero.
    pub fn zero() -> Config
        ensures { result ≡ zero_config }
    {
        Config {
            offset: [0u32; 4],
            size: [0u32; 4],
            step: [0u32; 4],
            dst_offset: [0u32; 4],
            dst_stride: [0u32; 4],
            perm: [0u8; 4],
            pre: [0u8; 4],
            post: [0u8; 4],
            fill: 0,
        }
    }
}

impl Answer {
    // A refused move's answer: number and dimension, and zeros.
    pub fn refused(f: Fault) -> Answer
        ensures { result ≡ refused f }
    {
        Answer {
            status: f.status,
            dim: f.dim,
            rank: 0,
            element_size: 0,
            extent: [0u32; 4],
            stride: [0u32; 4],
            need: 0,
        }
    }
}
