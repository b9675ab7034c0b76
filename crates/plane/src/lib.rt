// The rules of a plane and of a move: what is refused, with which number and at which dimension, and what an accepted
// move answers. No call here touches a plane's bytes, asks anything of its caller, or sets memory aside.
#![tactic(auto)]

mod entries; // four entries, told one by one
mod refusals; // a rule each: 1, and the dimension at fault for 3, 6, 7, 8, 9 and 12
mod signs; // signed numbers: size and sign
mod strides; // strides resolved outward, and the bytes that a box of elements reaches over
mod tensors; // 1 to 4: a tensor record by itself
mod extents; // kept counts and extents, and 10
mod destination; // 6 to 12: a configuration for an accepted tensor record
mod verdict; // the whole of a move: 1 to 13
mod zeros; // what is all zero, and a refused answer
mod settings; // a configuration with one field set
mod helpers; // element size and element count
mod sub; // a part of a plane as a tensor of its own

pub use faults::Fault;
pub use helpers::{element_count, element_size};
pub use refusals::rank_is_bad;
pub use sub::sub_tensor;
pub use tensors::source_of;
pub use verdict::{judge, room};

// A plane in memory: dimension 0 has the stride of the largest size. Shapes and strides are in elements, the element size in bytes;
// stride 0 stands for the inner product, and a dimension whose stride is below 0 counts down.
#[derive(Clone, Copy, PartialEq, Eq)]
pub struct Tensor {
    pub rank: u8,
    pub element_size: u8,
    pub shape: [u32; 4],
    pub stride: [i32; 4],
}

// How a plane is to be laid out. By source dimension: offset, size, step, pre and post. By destination dimension:
// dst_offset, dst_stride and perm, which names the source dimension. Of fill, a padded element holds the low bytes.
#[derive(Clone, Copy, PartialEq, Eq)]
pub struct Config {
    pub offset: [u32; 4],
    pub size: [u32; 4],
    pub step: [u32; 4],
    pub dst_offset: [u32; 4],
    pub dst_stride: [u32; 4],
    pub perm: [u8; 4],
    pub pre: [u8; 4],
    pub post: [u8; 4],
    pub fill: u32,
}

// The answers from here on are the paper's records, and no Results: of a refused one the zeros are promised too (DECISIONS 105).

// What a tensor record by itself comes to: the sizes of its resolved strides, whose signs are those of the record, and the bytes that it
// spans; zeros besides a fault.
#[derive(Clone, Copy)]
pub struct Source {
    pub fault: Fault,
    pub stride: [u32; 4],
    pub span: u64,
}

// What a move answers: extents and resolved strides in destination order, and the bytes that it needs.
#[derive(Clone, Copy)]
pub struct Answer {
    pub status: u8,
    pub dim: u8,
    pub rank: u8,
    pub element_size: u8,
    pub extent: [u32; 4],
    pub stride: [u32; 4],
    pub need: u64,
}

// What a room question answers: the move's answer, and the bytes that the source spans.
#[derive(Clone, Copy)]
pub struct RoomAnswer {
    pub answer: Answer,
    pub span: u64,
}

// How many elements there are.
#[derive(Clone, Copy)]
pub struct Count {
    pub status: u8,
    pub dim: u8,
    pub count: u64,
}

// Which part of a plane a sub-tensor is, and of which rank it is to be.
#[derive(Clone, Copy)]
pub struct SubConfig {
    pub offset: [u32; 4],
    pub size: [u32; 4],
    pub rank: u32,
}

// A part of a plane as a tensor of its own, which starts, with its lowest element, at a byte of the plane's source.
#[derive(Clone, Copy)]
pub struct SubTensor {
    pub status: u8,
    pub dim: u8,
    pub tensor: Tensor,
    pub byte: u64,
}
