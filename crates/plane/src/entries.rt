// Arrays of four entries, one a dimension.
ghost use Rattle.std.specs.Prelude.{◌≡◌, ℕ, ◌<◌};
ghost use Rattle.plane.specs.Arrays.{firsts};
ghost use Rattle.plane.specs.Private.{Tells};

use std::array;

// The entries of the dimensions below n, and 0 at and past it. `f` stands for whatever `entry` tells.
pub(crate) fn firsts<F: Fn(usize) -> u32>(n: u8, entry: F) -> [u32; 4]
    requires { (d : ℕ) → d < n → F.pre entry d }
    ensures { (f : ℕ → ℕ) → Tells (F.post entry) n f → result ≡ firsts n f }
{
    array::from_fn(
        |d: usize|
            requires { d < n → F.pre entry d }
        { if d < n as usize { entry(d) } else { 0 } },
    )
}
