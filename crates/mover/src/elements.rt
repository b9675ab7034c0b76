// Elements: one, and a run of them one by one, copied or of padding.
ghost use Rattle.std.specs.Prelude.{◌≡◌, ◌+◌, ◌<◌, ◌≤◌, length, slice_index};
ghost use Rattle.std.proofs.lemmas.List.Edits.{sets};
ghost use Rattle.mover.specs.Private.Elements.{source_bytes, padding};
ghost use Rattle.mover.specs.Private.Adding.{along};
ghost use Rattle.plane.specs.Planes.{Sized};
ghost use Rattle.mover.specs.Private.Runs.{element_copied, run_copied, run_padded, Readable, Writable};

// Where the source's bytes stand: in a slice lent for reading, or in the destination itself.
#[derive(Clone, Copy)]
pub(crate) enum Origin<'a> {
    Lent(&'a [u8]),
    Inside,
}

// A run: n elements of `size` bytes, the first from `at` to `to`, each a jump and a stride further, in bytes. A
// padded element holds the first bytes of `pad`.
#[derive(Clone, Copy)]
pub(crate) struct Course {
    pub(crate) at: usize,
    pub(crate) jump: usize,
    pub(crate) to: usize,
    pub(crate) stride: usize,
    pub(crate) size: usize,
    pub(crate) pad: [u8; 4],
    pub(crate) n: usize,
}

// The source's bytes, wherever they stand.
pub(crate) fn source<'a>(origin: Origin<'a>, dst: &'a [u8]) -> &'a [u8]
    ensures { result.now ≡ source_bytes origin.entry dst.now }
{
    match origin {
        Origin::Lent(src) => src,
        Origin::Inside => dst,
    }
}

// The bytes of the source's element at `at`, to `to`, in straight code for each size: all are read before one is stored.
pub(crate) fn copy(origin: Origin<'_>, dst: &mut [u8], at: usize, to: usize, size: usize)
    requires sized { Sized size }
    requires size_in_bounds { at + size ≤ length (source_bytes origin dst.old) }
    requires size_in_bounds_2 { to + size ≤ length dst.old }
    ensures { dst.new ≡ element_copied origin.entry dst.old at to size }
{
    let bytes = source(origin, dst);
    let a = bytes[at];
    if size == 1 {
        dst[to] = a;
        return;
    }
    let b = bytes[at + 1];
    if size == 2 {
        dst[to] = a;
        dst[to + 1] = b;
        return;
    }
    let c = bytes[at + 2];
    if size == 3 {
        dst[to] = a;
        dst[to + 1] = b;
        dst[to + 2] = c;
        return;
    }
    let d = bytes[at + 3];
    dst[to] = a;
    dst[to + 1] = b;
    dst[to + 2] = c;
    dst[to + 3] = d;
}

// A run of kept elements, one by one; tells where the next is stored. The size is tested within: the compiler makes a loop for each.
pub(crate) fn copy_each(origin: Origin<'_>, dst: &mut [u8], c: Course) -> usize
    requires writable { Writable dst.old c }
    requires readable { Readable origin dst.old c }
    ensures next { result ≡ along c.to c.stride c.n }
    ensures written { dst.new ≡ run_copied origin.entry dst.old c }
{
    let mut at = c.at;
    let mut to = c.to;
    for _ in 0..c.n {
        copy(origin, dst, at, to, c.size);
        at = at.wrapping_add(c.jump);
        to = to.wrapping_add(c.stride);
    }
    to
}

// A padded element at `to`: the first of the four bytes, in straight code for each size, as in `copy`.
fn pad(dst: &mut [u8], to: usize, size: usize, four: [u8; 4])
    requires sized { Sized size }
    requires size_in_bounds { to + size ≤ length dst.old }
    ensures { dst.new ≡ sets dst.old to (padding size four) }
{
    dst[to] = four[0];
    if size == 1 {
        return;
    }
    dst[to + 1] = four[1];
    if size == 2 {
        return;
    }
    dst[to + 2] = four[2];
    if size == 3 {
        return;
    }
    dst[to + 3] = four[3];
}

// A run of padding; tells where the next element is stored. The source's place is not looked at.
pub(crate) fn pad_run(dst: &mut [u8], c: Course) -> usize
    requires { Writable dst.old c }
    ensures next { result ≡ along c.to c.stride c.n }
    ensures written { dst.new ≡ run_padded dst.old c }
{
    let four = c.pad;
    let mut to = c.to;
    for _ in 0..c.n {
        pad(dst, to, c.size, four);
        to = to.wrapping_add(c.stride);
    }
    to
}
