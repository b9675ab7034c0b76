// An accepted move as the engine wants it.
ghost use Rattle.std.specs.Prelude.{◌≡◌, ℕ, ◌-◌, ◌*◌, ◌<◌, ◌≤◌, if◌then◌else◌, nat_lt};
ghost use Rattle.plane.specs.Arrays.{at, sum, product};
ghost use Rattle.plane.specs.Planes.{up};
ghost use Rattle.plane.specs.Signs.{is_down};
ghost use Rattle.plane.specs.Moves.{room_fault, accepted};
ghost use Rattle.mover.specs.Private.Plans.{jump_by, goes_down, jump_length, plan_of, axis_made, above_made, home_made, lone, Fit};

use plane::{Answer, Config, Tensor};

// One destination dimension.
#[derive(Clone, Copy)]
pub(crate) struct Axis {
    pub(crate) extent: usize, // pre + count + post
    pub(crate) pre: usize, // padding before
    pub(crate) count: usize, // kept
    pub(crate) jump: usize, // what to add, as 64 bits count, from one kept element to the next: step x source stride, in bytes
    pub(crate) stride: usize, // destination stride, in bytes
}

// The move, widened to four destination dimensions: those that the rank lacks stand first, with extent and count 1.
#[derive(Clone, Copy)]
pub(crate) struct Plan {
    pub(crate) size: usize, // bytes of an element
    pub(crate) pad: [u8; 4], // the bytes of the fill, the lowest first: a padded element holds the first of them
    pub(crate) home: usize, // byte of the first kept element in the source
    pub(crate) base: usize, // byte of the first element in the destination
    pub(crate) d0: Axis,
    pub(crate) d1: Axis,
    pub(crate) d2: Axis,
    pub(crate) d3: Axis,
}

// The whole product, which 64 bits hold, as `times` of `plane`: one line, and one place for both would be a public call.
fn times(a: u32, b: u32) -> usize
    ensures { (result ≡ a * b) × (result ≤ a * 4294967295) }
{
    (a as usize) * (b as usize)
}

// A jump over n bytes. One down is 2^64 less its length, so that one add serves both directions.
fn jump_by(down: bool, n: usize) -> usize
    ensures { result ≡ jump_by down n }
{
    if down { n.wrapping_neg() } else { n }
}

// Whether a jump goes down: it is 2^63 or above, and lengths are far below that.
pub(crate) fn goes_down(jump: usize) -> bool
    ensures { result ≡ goes_down jump }
{
    1 << 63 <= jump
}

// Over how many bytes it goes.
pub(crate) fn length_of(jump: usize) -> usize
    ensures { result ≡ jump_length jump }
{
    if goes_down(jump) {
        jump.wrapping_neg()
    } else {
        jump
    }
}

// How many strides up from the lowest element of its dimension coordinate x lies. A function, so that its contract says it of both
// directions at once.
fn up(stride: i32, shape: u32, x: u32) -> u32
    requires { x < shape }
    ensures { (result ≡ up (is_down stride) shape x) × (result < shape) }
{
    if stride < 0 { shape - 1 - x } else { x }
}

// A dimension that the rank lacks: one element.
pub(crate) fn lone() -> Axis
    ensures { result ≡ lone }
{
    Axis {
        extent: 1,
        pre: 0,
        count: 1,
        jump: 0,
        stride: 0,
    }
}

// An accepted move: its record, its configuration, the sizes of the source's resolved strides, and its answer.
#[derive(Clone, Copy)]
struct Accepted {
    tensor: Tensor,
    config: Config,
    sizes: [u32; 4],
    answer: Answer,
    ghost fit: { Fit tensor config answer },
}

impl Accepted {
    // How far above the lowest element of its dimension the first kept coordinate of destination dimension i lies, in elements. By
    // reference: else the whole move would be copied for each dimension.
    fn above(&self, i: usize) -> usize
        requires { i < self.now.answer.rank }
        ensures { result ≡ above_made self.now.tensor self.now.config self.now.sizes i }
    {
        let t = &self.tensor;
        let c = &self.config;
        let d = c.perm[i] as usize;
        times(up(t.stride[d], t.shape[d], c.offset[d]), self.sizes[d])
    }

    // The byte of the first kept element in the source.
    fn home(self) -> usize
        ensures { result ≡ home_made self.tensor self.config self.answer self.sizes }
    {
        let n = self.answer.rank as usize;
        let total: usize = (0..n).map(|i| self.above(i)).sum();
        total * (self.answer.element_size as usize)
    }

    // The byte of the first element in the destination.
    fn base(self) -> usize
        ensures { result ≡ sum self.answer.rank (λ i. at self.config.dst_offset i * at self.answer.stride i) * self.answer.element_size }
    {
        let n = self.answer.rank as usize;
        let total: usize = (0..n)
            .map(|i| times(self.config.dst_offset[i], self.answer.stride[i]))
            .sum();
        total * (self.answer.element_size as usize)
    }

    // Destination dimension i. What the padding leaves of its extent is kept.
    fn axis(self, i: usize) -> Axis
        requires { i < self.answer.rank }
        ensures { result ≡ axis_made self.tensor self.config self.answer self.sizes i }
    {
        let t = self.tensor;
        let c = self.config;
        let a = self.answer;
        let extent = a.extent[i] as usize;
        let d = c.perm[i] as usize;
        let pre = c.pre[d] as usize;
        let post = c.post[d] as usize;
        let step = c.step[d];
        let between = times(step, self.sizes[d]) * (a.element_size as usize);
        let down = t.stride[d] < 0;
        Axis {
            extent,
            pre,
            count: extent - pre - post,
            jump: jump_by(down, between),
            stride: times(a.stride[i], a.element_size as u32),
        }
    }

    // Axis j of four: those that the rank lacks stand first.
    fn axis_of_four(self, j: usize) -> Axis
        requires { j < 4 }
        ensures { result ≡ (if nat_lt j (4 - self.answer.rank) then lone else axis_made self.tensor self.config self.answer self.sizes (j - (4 - self.answer.rank))) }
    {
        let lacking = 4 - (self.answer.rank as usize);
        if j < lacking {
            return lone();
        }
        self.axis(j - lacking)
    }
}

// The plan of an accepted move, whose answer is a.
pub(crate) fn plan_of(t: Tensor, c: Config, a: Answer) -> Plan
    requires { ((room_fault t c).status ≡ 0) × (a ≡ accepted t c) }
    ensures { result ≡ plan_of t c }
{
    let source = plane::source_of(t);
    let sizes = source.stride;
    let it = Accepted {
        tensor: t,
        config: c,
        sizes,
        answer: a,
    };
    Plan {
        size: a.element_size as usize,
        pad: c.fill.to_le_bytes(),
        home: it.home(),
        base: it.base(),
        d0: it.axis_of_four(0),
        d1: it.axis_of_four(1),
        d2: it.axis_of_four(2),
        d3: it.axis_of_four(3),
    }
}

// How many elements the destination of an accepted move has.
pub(crate) fn total(a: Answer) -> usize
    requires { (a.rank ≤ 4) × ((i : ℕ) → i < a.rank → at a.extent i ≤ 65535) }
    ensures { result ≡ product a.rank (at a.extent) }
{
    let n = a.rank as usize;
    (0..n).map(|i| a.extent[i] as usize).product()
}
