// A sub-tensor of a lent source: its numbers, and the part of the source that a move which reads it is given.
ghost use Rattle.std.specs.Prelude.{◌≡◌, length};
ghost use Rattle.plane.specs.Helpers.{sub_tensor_of};
ghost use Rattle.mover.specs.SubPart.{sub_part};

use plane::{SubConfig, SubTensor, Tensor};

// The numbers of the part of the plane that src holds: its shape and strides, and the byte of its lowest element.
pub fn sub_tensor(t: Tensor, s: SubConfig, src: &[u8]) -> SubTensor
    ensures { result ≡ sub_tensor_of t s (length src.now) }
{
    plane::sub_tensor(t, s, src.len())
}

// The source from the sub-tensor's byte to its end, or an empty part where sub_tensor refuses.
pub fn sub_part(t: Tensor, s: SubConfig, src: &[u8]) -> &[u8]
    ensures { result.now ≡ sub_part t s src.now }
{
    let a = sub_tensor(t, s, src);
    let end = src.len();
    // the part is empty where the paper's answer has a number, and its byte is else where it starts
    if a.status != 0 {
        return &src[end..];
    }
    let at = a.byte as usize;
    &src[at..]
}
