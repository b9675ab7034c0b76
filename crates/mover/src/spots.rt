// Where an element stands in the destination and in the source, and where the next row, layer and slab start: by adding.
ghost use Rattle.std.specs.Prelude.{◌≡◌};
ghost use Rattle.mover.specs.Private.Adding.{onward_of, next_row, next_layer, next_slab};

use crate::plan::Axis;

// Two places: `to` is the byte of an element in the destination, `at` that of its source element. In padding, and behind a run, `at`
// stays at one that is kept.
#[derive(Clone, Copy)]
pub(crate) struct Spot {
    pub(crate) to: usize,
    pub(crate) at: usize,
}

// The spots of an element: where its slab, its layer and its row start, and its own. A row goes over the last coordinate, a layer over
// the last two, a slab over the last three.
#[derive(Clone, Copy)]
pub(crate) struct Spots {
    pub(crate) slab: Spot,
    pub(crate) layer: Spot,
    pub(crate) row: Spot,
    pub(crate) here: Spot,
}

// The spot at coordinate c of a dimension, from that at the one before. The source goes on between two coordinates that are kept, so
// no place outside it is worked out for padding.
fn onward(s: Spot, x: Axis, c: usize) -> Spot
    ensures { result ≡ onward_of s x c }
{
    let goes_on = x.pre < c && c - x.pre < x.count;
    Spot {
        to: s.to.wrapping_add(x.stride),
        at: if goes_on {
            s.at.wrapping_add(x.jump)
        } else {
            s.at
        },
    }
}

// A function for each of the three: they differ in what they keep, and one over a number for row, layer and slab would ask it each time.

// The spots of the next row, which is number c of its dimension: back to where the last one started, and a stride further.
pub(crate) fn next_row(s: Spots, x: Axis, c: usize) -> Spots
    ensures { result ≡ next_row s x c }
{
    let row = onward(s.row, x, c);
    Spots {
        row,
        here: row,
        ..s
    }
}

// The same of the next layer; its first row starts where it does.
pub(crate) fn next_layer(s: Spots, x: Axis, c: usize) -> Spots
    ensures { result ≡ next_layer s x c }
{
    let layer = onward(s.layer, x, c);
    Spots {
        layer,
        row: layer,
        here: layer,
        ..s
    }
}

// The same of the next slab; its first layer and row start where it does.
pub(crate) fn next_slab(s: Spots, x: Axis, c: usize) -> Spots
    ensures { result ≡ next_slab s x c }
{
    let slab = onward(s.slab, x, c);
    Spots {
        slab,
        layer: slab,
        row: slab,
        here: slab,
    }
}
