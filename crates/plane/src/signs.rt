// Signed 32-bit numbers: the size and the sign.
ghost use Rattle.std.specs.Prelude.{◌≡◌, ℕ, ◌≤◌, ◌<◌};
ghost use Rattle.plane.specs.Arrays.{at, array};
ghost use Rattle.plane.specs.Signs.{is_down, signed, at_z, sizes};

use std::array;

// Whether s is below 0.
pub(crate) fn is_down(s: i32) -> bool
    ensures { result ≡ is_down s }
{
    s < 0
}

// The number of this size, with the sign of s. By hand, since std has no such method for integers.
fn with_sign(s: i32, size: u32) -> i32
    requires { size ≤ 2147483647 }
    ensures { result ≡ signed (is_down s) size }
{
    if s < 0 { -(size as i32) } else { size as i32 }
}

// Four numbers without their signs.
pub(crate) fn sizes(xs: [i32; 4]) -> [u32; 4]
    ensures { result ≡ sizes xs }
{
    xs.map(i32::unsigned_abs)
}

// These sizes, with the signs of xs.
pub(crate) fn with_signs(xs: [i32; 4], size: [u32; 4]) -> [i32; 4]
    requires { (d : ℕ) → d < 4 → at size d ≤ 2147483647 }
    ensures { result ≡ array (λ d. signed (is_down (at_z xs d)) (at size d)) }
{
    array::from_fn(|d| with_sign(xs[d], size[d]))
}
