// Runs the paper's examples through the public calls, and prints what each answers: A to J (moves, some by the plain engine too, and D
// by stretches of either), K (a sub-tensor), L (two transfers), those that the paper only runs, single pixels, and transfers off
// boundaries and on them.
#![tactic(auto)]

use mover::Advanced;
use output::Entries;
use plane::{Answer, Config, SubConfig, Tensor};
use std::io;
use transfers::{Job, Part, Table};

const SIX: [u8; 6] = [1, 2, 3, 4, 5, 6];

const FIVE_SIX: [u8; 2] = [5, 6];

const TWELVE: [u8; 12] = [1, 2, 3, 4, 5, 6, 7, 8, 9, 10, 11, 12];

// A compact plane.
fn compact(rank: u8, element_size: u8, shape: [u32; 4]) -> Tensor {
    Tensor {
        rank,
        element_size,
        shape,
        stride: [0i32; 4],
    }
}

// A plane of single bytes and rank 2, with its strides.
fn strided(shape: [u32; 4], stride: [i32; 4]) -> Tensor {
    Tensor {
        rank: 2,
        element_size: 1,
        shape,
        stride,
    }
}

fn copy_of(rank: u8) -> Config {
    ready_made::copy(rank).config
}

// Rows become columns.
fn turn() -> Config {
    ready_made::permute(2, [1, 0, 0, 0]).config
}

// A move under the name that it is told by: of the plane that a source holds, laid out as the configuration says.
#[derive(Clone, Copy)]
struct Example<'a> {
    name: &'a str,
    tensor: Tensor,
    config: Config,
    source: &'a [u8],
}

impl<'a> Example<'a> {
    fn new(name: &'a str, tensor: Tensor, config: Config, source: &'a [u8]) -> Example<'a> {
        Example {
            name,
            tensor,
            config,
            source,
        }
    }

    // The same under another name.
    fn named(self, name: &'a str) -> Example<'a> {
        Example { name, ..self }
    }

    // The same with another configuration.
    fn with(self, config: Config) -> Example<'a> {
        Example { config, ..self }
    }

    // The move by an engine: its name, the number and dimension of the answer, and the destination.
    fn run_by<M: Fn(Tensor, Config, &[u8], &mut [u8]) -> Answer>(
        self,
        rt: &impl Print,
        mover: M,
        dst: &mut [u8],
    ) -> io::Result<()>
        requires { M.IsAlwaysCallable mover }
    {
        let a = mover(self.tensor, self.config, self.source, dst);
        println!(rt; "{} {} {}:{}", self.name, a.status, a.dim, Entries(dst))
    }

    // By the first engine, in a closure: its function stands in a private module of mover, and the checker takes no such name as a value.
    fn run(self, rt: &impl Print, dst: &mut [u8]) -> io::Result<()> {
        self.run_by(rt, |t, c, from, to| mover::move_plane(t, c, from, to), dst)
    }

    fn run_plain(self, rt: &impl Print, dst: &mut [u8]) -> io::Result<()> {
        self.run_by(rt, mover::plain::move_plane, dst)
    }

    // One element of rank 2, before anything is moved: whether it is padding, where it is, the number and dimension of the answer, and
    // its bytes.
    fn pick(self, rt: &impl Print, i: u32, j: u32) -> io::Result<()> {
        let p = mover::pixel(self.tensor, self.config, self.source, [i, j, 0, 0]);
        print!(rt;
            "pixel padding {} {} at {i} {j}:",
            u8::from(p.padding),
            self.name
        )?;
        println!(rt; " {} {}:{}", p.status, p.dim, Entries(&p.bytes))
    }
}

// A: turned.
fn turned() -> Example<'static> {
    Example::new("A", compact(2, 1, [2, 3, 0, 0]), turn(), &SIX)
}

// D: padded, with a row before and a column behind.
fn padded() -> Example<'static> {
    let c = copy_of(2).with_pre([1, 0, 0, 0]).with_post([0, 1, 0, 0]);
    Example::new("D", compact(2, 1, [1, 2, 0, 0]), c, &FIVE_SIX)
}

// The same with a fill of 128.
fn filled() -> Example<'static> {
    let d = padded();
    d.named("filled").with(d.config.with_fill(128))
}

// G: padding counts by source dimension.
fn padded_and_turned() -> Example<'static> {
    let c = copy_of(2).with_pre([1, 0, 0, 0]).with_perm([1, 0, 0, 0]);
    padded().named("G").with(c)
}

// F: rows with a gap, which stays.
fn gapped() -> Example<'static> {
    let c = copy_of(2).with_dst_stride([3, 1, 0, 0]);
    Example::new("F", compact(2, 1, [2, 2, 0, 0]), c, &SIX[..4])
}

// A: turned, and with a permutation that is none. B: cut.
fn turn_and_cut(rt: &impl Print) -> io::Result<()> {
    let a = turned();
    a.run(rt, &mut [0; 6])?;
    let repeated = ready_made::permute(2, [0, 0, 0, 0]).config;
    a.with(repeated).run(rt, &mut [7; 6])?;
    let cut = copy_of(2).with_offset([1, 1, 0, 0]).with_size([2, 2, 0, 0]);
    let b = Example::new("B", compact(2, 1, [3, 4, 0, 0]), cut, &TWELVE);
    b.run(rt, &mut [0; 4])
}

// C: thinned, rounded up.
fn thin(rt: &impl Print) -> io::Result<()> {
    let t = compact(1, 1, [7, 0, 0, 0]);
    let thinned = copy_of(1).with_step([3, 0, 0, 0]);
    let c = Example::new("C", t, thinned, &TWELVE[..7]);
    c.run(rt, &mut [9; 3])?;
    c.with(thinned.with_size([6, 0, 0, 0]))
        .run(rt, &mut [9; 3])?;
    c.with(thinned.with_step([9, 0, 0, 0])).run(rt, &mut [9; 3])
}

// D, also with a fill; and G.
fn pad(rt: &impl Print) -> io::Result<()> {
    padded().run(rt, &mut [9; 6])?;
    filled().run(rt, &mut [9; 6])?;
    padded_and_turned().run(rt, &mut [9; 4])
}

// E: set into a larger plane. F, also where the room is too short.
fn set_in(rt: &impl Print) -> io::Result<()> {
    let larger = ready_made::concatenate(2, [1, 0, 0, 0], [2, 1, 0, 0]).config;
    let row = compact(2, 1, [1, 2, 0, 0]);
    Example::new("E", row, larger, &[8, 9]).run(rt, &mut [1; 4])?;
    gapped().run(rt, &mut [7; 5])?;
    gapped().run(rt, &mut [7; 4])
}

// H: all at once. I: elements of two bytes. J: of three bytes, refused for its shape. And a plane of rank 3 turned.
fn more(rt: &impl Print) -> io::Result<()> {
    let some = turn().with_offset([0, 1, 0, 0]).with_step([2, 2, 0, 0]);
    let h = Example::new("H", compact(2, 1, [3, 4, 0, 0]), some, &TWELVE);
    h.run(rt, &mut [0; 4])?;
    let from = copy_of(1).with_offset([1, 0, 0, 0]);
    let i = Example::new("I", compact(1, 2, [3, 0, 0, 0]), from, &SIX);
    i.run(rt, &mut [0; 4])?;
    let wide = compact(2, 3, [0, 70000, 0, 0]);
    Example::new("J", wide, copy_of(2), &TWELVE).run(rt, &mut [0; 2])?;
    let deep = ready_made::permute(3, [2, 0, 1, 0]).config;
    let t = compact(3, 1, [2, 2, 3, 0]);
    Example::new("turned", t, deep, &TWELVE).run(rt, &mut [0; 12])
}

// Pixels of three bytes: turned; and with a fill of 0x332211 before each row.
fn pixels(rt: &impl Print) -> io::Result<()> {
    let turned = Example::new("pixels", compact(2, 3, [2, 2, 0, 0]), turn(), &TWELVE);
    turned.run(rt, &mut [0; 12])?;
    let c = copy_of(2).with_pre([0, 1, 0, 0]).with_fill(0x332211);
    turned.with(c).run(rt, &mut [0; 18])
}

// Of A the last, and one past it; of D, also with a fill; and of G.
fn picked(rt: &impl Print) -> io::Result<()> {
    turned().pick(rt, 2, 1)?;
    turned().pick(rt, 2, 2)?;
    padded().pick(rt, 0, 0)?;
    filled().pick(rt, 0, 0)?;
    padded_and_turned().pick(rt, 1, 1)
}

// A, D, F and G by the plain engine, and F where the room is too short.
fn plainly(rt: &impl Print) -> io::Result<()> {
    turned().named("plain A").run_plain(rt, &mut [0; 6])?;
    padded().named("plain D").run_plain(rt, &mut [9; 6])?;
    let f = gapped().named("plain F");
    f.run_plain(rt, &mut [7; 5])?;
    f.run_plain(rt, &mut [7; 4])?;
    let g = padded_and_turned().named("plain G");
    g.run_plain(rt, &mut [9; 4])
}

fn print_stretch(rt: &impl Print, a: Advanced, mem: &[u8]) -> io::Result<()> {
    println!(rt; "stretch {} {}:{}", a.status, a.count, Entries(mem))
}

// D's six elements between two parts of one memory, by turns: 2 to 4 by the plain engine, 0 and 1 by the first, the rest by the plain.
fn stretches(rt: &impl Print) -> io::Result<()> {
    let source = Part {
        start: 0,
        length: 2,
    };
    let destination = Part {
        start: 2,
        length: 6,
    };
    let d = padded();
    let job = Job {
        source,
        destination,
        tensor: d.tensor,
        config: d.config,
    };
    let mut mem = [5u8, 6, 9, 9, 9, 9, 9, 9];
    print_stretch(rt, mover::plain::advance(&mut mem, job, 2, 3), &mem)?;
    print_stretch(rt, mover::advance(&mut mem, job, 0, 2), &mem)?;
    print_stretch(rt, mover::plain::advance(&mut mem, job, 5, 9), &mem)
}

// Two elements of the second row of (3,4) as a tensor of their own. A copy of it reads the source from its byte on.
fn row_of(rt: &impl Print, name: &str, t: Tensor) -> io::Result<()> {
    let row = SubConfig {
        offset: [1, 2, 0, 0],
        size: [1, 2, 0, 0],
        rank: 1,
    };
    let k = mover::sub_tensor(t, row, &TWELVE);
    let shape = k.tensor.shape[0];
    let stride = k.tensor.stride[0];
    println!(rt;
        "{name} {} shape {shape} stride {stride} byte {}",
        k.status, k.byte
    )?;
    let part = mover::sub_part(t, row, &TWELVE);
    Example::new(name, k.tensor, copy_of(1), part).run(rt, &mut [0; 2])
}

// K: a sub-tensor.
fn sub(rt: &impl Print) -> io::Result<()> {
    row_of(rt, "K", compact(2, 1, [3, 4, 0, 0]))
}

// Rows read right to left, rows from the last one on, both, and a quarter turn clockwise; and K of a plane whose both dimensions count
// down.
fn mirror(rt: &impl Print) -> io::Result<()> {
    let shape = [2, 3, 0, 0];
    for stride in [[0, -1, 0, 0], [-3, 0, 0, 0], [-3, -1, 0, 0]] {
        let mirrored = Example::new("mirrored", strided(shape, stride), copy_of(2), &SIX);
        mirrored.run(rt, &mut [0; 6])?;
    }
    let upside_down = strided(shape, [-3, 0, 0, 0]);
    Example::new("rotated", upside_down, turn(), &SIX).run(rt, &mut [0; 6])?;
    row_of(rt, "mirrored", strided([3, 4, 0, 0], [-4, -1, 0, 0]))
}

// What the paper only runs: the count of (2,4,8) from 1; sizes 65,280 and 65,281 with 255 of padding before. And the largest count.
fn run_only(rt: &impl Print) -> io::Result<()> {
    let n = plane::element_count(compact(3, 1, [2, 4, 8, 0]), 1);
    let most = plane::element_count(compact(4, 1, [65535; 4]), 0);
    println!(rt; "count {} {}", n.count, most.count)?;
    let t = compact(1, 1, [65535, 0, 0, 0]);
    let c = copy_of(1).with_pre([255, 0, 0, 0]);
    let fits = plane::room(t, c.with_size([65280, 0, 0, 0]));
    let over = plane::room(t, c.with_size([65281, 0, 0, 0]));
    println!(rt; "room {} {}", fits.answer.status, over.answer.status)
}

// The rank 1 plane t, which has so many bytes, copied from one byte on into another.
fn copied(t: Tensor, length: u64, from: u64, to: u64) -> Job {
    Job {
        source: Part {
            start: from,
            length,
        },
        destination: Part { start: to, length },
        tensor: t,
        config: copy_of(1),
    }
}

// n elements of one byte each.
fn job(n: u32, from: u64, to: u64) -> Job {
    copied(compact(1, 1, [n, 0, 0, 0]), u64::from(n), from, to)
}

// Prepares a transfer of two elements in a memory of 16 bytes.
fn prepare_two(rt: &impl Print, size: u8, from: u64, to: u64) -> io::Result<()> {
    let two = compact(1, size, [2, 0, 0, 0]);
    let job = copied(two, 2 * u64::from(size), from, to);
    let a = Table::fresh(16).table.prepare(&[0; 16], job);
    println!(rt; "boundary {size} from {from} into {to} status {}", a.status)
}

// Samples of two bytes off their boundaries and on them; pixels of three bytes may start anywhere.
fn boundaries(rt: &impl Print) -> io::Result<()> {
    prepare_two(rt, 2, 1, 8)?;
    prepare_two(rt, 2, 2, 7)?;
    prepare_two(rt, 2, 2, 8)?;
    prepare_two(rt, 3, 1, 8)
}

// L: two transfers, stepped by turns, the second first; and a third that would write where one of them reads.
fn two_at_once(rt: &impl Print) -> io::Result<()> {
    let mut mem = [1u8, 2, 3, 4, 0, 0, 0, 0];
    let a = Table::fresh(8).table.prepare(&mem, job(2, 0, 4));
    let b = a.table.prepare(&mem, job(2, 2, 6));
    let started = b.table.start(&mem, a.handle).table;
    let running = started.start(&mem, b.handle);
    let mut table = running.table;
    let mut status = running.status;
    for handle in [b.handle, a.handle, b.handle, a.handle] {
        let stepped = table.step(&mut mem, handle, 1);
        table = stepped.table;
        status = stepped.status;
    }
    let third = table.prepare(&mem, job(1, 2, 0)).status;
    println!(rt; "L {status}:{} third {third}", Entries(&mem))
}

fn main(rt: HostRuntime) -> io::Result<()> {
    turn_and_cut(&rt)?;
    thin(&rt)?;
    pad(&rt)?;
    set_in(&rt)?;
    more(&rt)?;
    pixels(&rt)?;
    picked(&rt)?;
    plainly(&rt)?;
    stretches(&rt)?;
    sub(&rt)?;
    mirror(&rt)?;
    run_only(&rt)?;
    two_at_once(&rt)?;
    boundaries(&rt)
}
