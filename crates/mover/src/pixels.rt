// One element of a destination, before anything is moved.
ghost use Rattle.std.specs.Prelude.{◌≡◌, ◌+◌, ◌≤◌, [], length, IfSome};
ghost use Rattle.faults.specs.Faults.{lowest, outcome};
ghost use Rattle.plane.specs.Arrays.{at, firsts};
ghost use Rattle.mover.specs.Private.Elements.{source_bytes};
ghost use Rattle.mover.specs.Pixel.{bad_coordinate, pixel_fault, pixel_of};
ghost use Rattle.mover.specs.Private.Pixels.{Pickable, row_at};
ghost use Rattle.mover.specs.Private.Rows.{size_of, row_byte};

use crate::PixelAnswer;
use crate::elements::Origin;
use crate::plain::{Row, byte, inward, outermost};
use crate::verdicts::judged;
use plane::{Config, Fault, Tensor};
use std::array;

// 35: the lowest of n dimensions whose coordinate is at or above its extent.
fn coordinate_fault(n: u8, extent: [u32; 4], x: [u32; 4]) -> Result<(), Fault>
    requires { n ≤ 4 }
    ensures { result ≡ outcome (lowest 35 n (λ i. bad_coordinate (at extent i) (at x i))) tt }
{
    match (0..n).find(|&i| extent[i as usize] <= x[i as usize]) {
        Some(i) => Err(Fault { status: 35, dim: i }),
        None => Ok(()),
    }
}

// What refuses a pixel of a source of len bytes: 1 to 12, then 35.
fn pixel_fault(t: Tensor, c: Config, len: usize, x: [u32; 4]) -> Result<(), Fault>
    ensures { result ≡ outcome (pixel_fault t c len x) tt }
{
    // as a move into the longest destination that there is: 13 never applies
    let a = judged(t, c, len, usize::MAX)?;
    coordinate_fault(t.rank, a.extent, x)
}

// The element at this coordinate, as the plain engine comes to it: inward by one entry for each dimension.
fn row_at<'a>(t: Tensor, c: Config, src: &'a [u8], x: [u32; 4]) -> Row<'a>
    requires { Pickable t c x }
    ensures { result ≡ row_at t c src.entry x }
{
    // a loop, and no fold: a step inward asks for the row that the steps before it leave
    let mut row = outermost(t, c, Origin::Lent(src), 0, 0);
    for i in 0..t.rank as usize {
        row = inward(&row, i, x[i]);
    }
    row
}

// The bytes of an element, with 0 behind them. Its source is lent, so nothing of a destination is read.
fn bytes_of(row: &Row<'_>) -> [u8; 4]
    requires row_bound { size_of row.now ≤ 4 }
    requires row_in_bounds { IfSome row.now.at (λ at. at + size_of row.now ≤ length (source_bytes row.now.origin [])) }
    ensures { result ≡ firsts (size_of row.now) (row_byte row.now []) }
{
    let size = row.tensor.element_size as usize;
    array::from_fn(|b| if b < size { byte(&[], row, b) } else { 0 })
}

// The element that a move of the plane t from src as c says would store at the destination coordinate `at`, of which entries past the
// rank do not count. It is refused as the move is, with 1 to 12, and then with 35; no destination is lent, and nothing is moved.
pub fn pixel(t: Tensor, c: Config, src: &[u8], at: [u32; 4]) -> PixelAnswer
    ensures { result ≡ pixel_of t c src.now at }
{
    match pixel_fault(t, c, src.len(), at) {
        Ok(()) => {
            let row = row_at(t, c, src, at);
            PixelAnswer {
                status: 0,
                dim: 0,
                bytes: bytes_of(&row),
                padding: row.at.is_none(),
            }
        }
        Err(f) => PixelAnswer {
            status: f.status,
            dim: f.dim,
            bytes: [0; 4],
            padding: false,
        },
    }
}
