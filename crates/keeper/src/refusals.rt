// Why a call of the keeper is refused. None of the numbers names a dimension.
use faults::Fault;

// The memory's length is not one that has blocks.
pub(crate) const NO_BLOCKS: Fault = Fault { status: 17, dim: 0 };

// There is no such run of blocks.
pub(crate) const NO_RUN: Fault = Fault { status: 31, dim: 0 };

// No run is free.
pub(crate) const NO_FREE_RUN: Fault = Fault { status: 32, dim: 0 };

// A block of the run is free, or a byte of it is in use.
pub(crate) const NOT_TO_BE_FREED: Fault = Fault { status: 33, dim: 0 };
