// The plain engine: a move to be read beside the paper. At each destination dimension it goes through the coordinates in order, and
// calls itself with one dimension fewer; with none left it stores one element. It leaves what the first engine leaves, and is slower.
ghost use Rattle.std.specs.Prelude.{◌≡◌, ◌+◌, ◌^◌, ◌<◌, length, nat_lt, IfSome};
ghost use Rattle.plane.specs.Moves.{count, judge_of};
ghost use Rattle.plane.specs.Good.{GoodSource, GoodConfig};
ghost use Rattle.mover.specs.Moved.{move_memory};
ghost use Rattle.mover.specs.Within.{advance_of, advance_memory};
ghost use Rattle.mover.specs.Private.Elements.{source_bytes};
ghost use Rattle.mover.specs.Private.Rows.{row_byte, Storable, row_stored, inward_of, Passable, first_of, past_of, Stands, Comes, outermost_of};

use crate::elements::{Origin, source};
use plane::{Config, Tensor};

// A row: the elements of the destination that have the same coordinates in its first dimensions. Its depth is how many dimensions are
// left: with one it is a row of the paper, with none an element, with all of them the destination.
#[derive(Clone, Copy)]
pub(crate) struct Row<'a> {
    pub(crate) tensor: Tensor,
    pub(crate) config: Config,
    pub(crate) origin: Origin<'a>, // where the source's bytes stand
    pub(crate) source: plane::Source, // the sizes of the source's strides
    pub(crate) answer: plane::Answer, // the destination's extents and strides
    pub(crate) number: u64, // how many rows of its depth come before it
    pub(crate) at: Option<usize>, // the byte in the source that the coordinates so far lead to, if kept: every k is from 0 to count - 1
    pub(crate) place: usize, // the byte in the destination that they lead to
}

// Byte b of an element: the source's, or the fill's, the lowest first.
pub(crate) fn byte(dst: &[u8], row: &Row<'_>, b: usize) -> u8
    requires b_bound { b < 4 }
    requires b_in_bounds { IfSome row.now.at (λ at. at + b < length (source_bytes row.now.origin dst.now)) }
    ensures { result ≡ row_byte row.now dst.now b }
{
    match row.at {
        Some(at) => source(row.origin, dst)[at + b],
        None => row.config.fill.to_le_bytes()[b],
    }
}

// Stores an element, byte by byte: the source may stand in dst itself, so that none of it can be lent while dst is written.
fn store(dst: &mut [u8], row: &Row<'_>)
    requires { Storable row.now dst.old }
    ensures { dst.new ≡ row_stored row.now dst.old }
{
    for b in 0..row.tensor.element_size as usize {
        dst[row.place + b] = byte(dst, row, b);
    }
}

// How many are kept of source dimension s: size / step, rounded up. Size 0 means shape - offset.
fn kept_count(t: &Tensor, config: &Config, s: usize) -> u32
    requires good_source { GoodSource t.now }
    requires good_config { GoodConfig t.now config.now }
    requires s_lt_rank { s < t.now.rank }
    ensures { result ≡ count t.now config.now s }
{
    let step = config.step[s];
    let size = config.size[s];
    let rest = t.shape[s] - config.offset[s];
    let taken = if size == 0 { rest } else { size };
    taken.div_ceil(step)
}

// The row at coordinate c of destination dimension i, which is source dimension s = perm[i].
pub(crate) fn inward<'a>(row: &Row<'a>, i: usize, c: u32) -> Row<'a>
    requires { Passable row.now i c }
    ensures { result ≡ inward_of row.now i c }
{
    let t = &row.tensor;
    let config = &row.config;
    let answer = &row.answer;
    let source = &row.source;
    let s = config.perm[i] as usize;
    let size = t.element_size as usize;
    let pre = config.pre[s] as u32;
    let count = kept_count(t, config, s);
    let number = row.number * answer.extent[i] as u64 + c as u64;
    // the place: (destination offset + c) x stride in each dimension, here in bytes
    let place = row.place + (config.dst_offset[i] + c) as usize * answer.stride[i] as usize * size;
    // kept if k = c - pre is from 0 to count - 1; then the source's at offset + k x step
    let at = match row.at {
        Some(at) if pre <= c && c < pre + count => {
            let k = c - pre;
            let coordinate = config.offset[s] + k * config.step[s];
            // from the lowest element up: a dimension whose stride is below 0 counts down
            let up = if t.stride[s] < 0 {
                t.shape[s] - 1 - coordinate
            } else {
                coordinate
            };
            Some(at + up as usize * source.stride[s] as usize * size)
        }
        _ => None, // padding
    };
    Row {
        number,
        at,
        place,
        ..*row
    }
}

// Of the elements numbered first to end - 1, stores those in a row of that depth. Tells whether any come after the row; where none do,
// its callers stop too.
fn store_row(dst: &mut [u8], row: &Row<'_>, depth: u8, first: u64, end: u64) -> bool
    requires stands { Stands row.now depth dst.old }
    requires depth_bound { first_of row.now depth < end }
    requires source_bound { length (source_bytes row.now.origin dst.old) < 2 ^ 64 }
    ensures told { result ≡ nat_lt (past_of row.now depth) end }
    ensures stored { (h : Stands row.now depth dst.old) → Comes h first end (first_of row.now depth) (past_of row.now depth) dst.new }
{
    if depth == 0 {
        let is_asked = first <= row.number;
        if is_asked {
            store(dst, row);
        }
        return row.number + 1 < end;
    }
    let i = (row.tensor.rank - depth) as usize;
    // a loop, and no `all` over a closure: it is to be seen that it stops
    for c in 0..row.answer.extent[i] {
        let next = inward(row, i, c);
        if !store_row(dst, &next, depth - 1, first, end) {
            return false;
        }
    }
    true
}

// The destination of an accepted move as one row, which starts at byte `place`; the source starts at byte `at`.
pub(crate) fn outermost<'a>(
    t: Tensor,
    config: Config,
    origin: Origin<'a>,
    at: usize,
    place: usize,
) -> Row<'a>
    ensures { result ≡ outermost_of t config origin.entry at place }
{
    Row {
        tensor: t,
        config,
        origin,
        source: plane::source_of(t),
        answer: plane::room(t, config).answer,
        number: 0,
        at: Some(at),
        place,
    }
}

// Moves the plane t from src into dst as config says, and answers; a refused move (1 to 13) changes nothing.
pub fn move_plane(t: Tensor, config: Config, src: &[u8], dst: &mut [u8]) -> plane::Answer
    ensures answered { result ≡ judge_of t config (length src.now) (length dst.old) }
    ensures written { dst.new ≡ move_memory t config src.now dst.old }
{
    let a = plane::judge(t, config, src.len(), dst.len()); // it goes out as it is, refused or not
    let is_accepted = a.status == 0;
    if is_accepted {
        let row = outermost(t, config, Origin::Lent(src), 0, 0);
        store_row(dst, &row, t.rank, 0, u64::MAX); // the end is above every number
    }
    a
}

// Moves the elements of a job from number `from` on: budget of them, or what is left. A refused job (20, 1 to 13, 34, 21) has a total
// of 0. The source stands in the memory, so none is lent.
pub fn advance(mem: &mut [u8], job: crate::Job, from: u64, budget: u64) -> crate::Advanced
    ensures answered { result ≡ advance_of job from budget mem.old }
    ensures written { mem.new ≡ advance_memory job from budget mem.old }
{
    let v = crate::judge_job(mem.len(), job);
    let rest = v.total.saturating_sub(from);
    let count = budget.min(rest);
    if count != 0 {
        let at = job.source.start as usize;
        let place = job.destination.start as usize;
        let row = outermost(job.tensor, job.config, Origin::Inside, at, place);
        store_row(mem, &row, job.tensor.rank, from, from + count);
    }
    crate::Advanced {
        status: v.status,
        dim: v.dim,
        count,
    }
}
