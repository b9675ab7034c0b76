// preview: a small picture becomes a thumbnail and a turned picture, and colour and alpha become one plane. A program to copy from:
// first a whole move between two lent slices, and another of the picture upside down, then two planes joined by two moves, then two transfers that take turns over one memory,
// then one in room that a keeper grants, then the same two moves as a list of records, written and gone through, then single pixels of a
// thumbnail in a frame, and its record by itself, and at last a record that asks for more than anybody would lend.
#![tactic(auto)]

use output::Hex;
use plane::{Config, Tensor};
use record::Reading;
use std::{fmt, io};
use transfers::{Job, Part, Poll, Table};

const HEIGHT: usize = 4;

const WIDTH: usize = 6;

const PICTURE: usize = HEIGHT * WIDTH; // bytes of the picture

const SMALL: usize = PICTURE / 4; // bytes of its thumbnail: every second row, and of it every second byte

// The memory of the transfers: the picture, its thumbnail, and the picture turned.
const SMALL_AT: usize = PICTURE;

const TURNED_AT: usize = SMALL_AT + SMALL;

const MEMORY: usize = TURNED_AT + PICTURE;

const MOST: usize = MEMORY; // bytes that are lent to one move at the most, whatever its record asks for

const BUDGET: u64 = 4; // elements that one step may move

// A memory whose room is kept: 64 blocks of 4 bytes, each at a multiple of 4. The picture takes 6 of them, its thumbnail 2.
const KEPT: usize = 256;

const PICTURE_BLOCKS: u32 = 6;

const SMALL_BLOCKS: u32 = 2;

// The bytes of the picture: their digits are row and column.
const PIXELS: [u8; PICTURE] =
    *b"\x11\x12\x13\x14\x15\x16\x21\x22\x23\x24\x25\x26\x31\x32\x33\x34\x35\x36\x41\x42\x43\x44\x45\x46";

const ZERO_POINT: u32 = 0x80; // the byte that stands for 0 in the picture

const LISTED: usize = list::HEAD + 2 * record::LENGTH; // bytes of a list of two records

// A picture in two planes, colour and alpha.
const ROWS: usize = 2;

const COLUMNS: usize = 2;

const COLOURS: usize = 3; // channels of colour; alpha has one

const CHANNELS: usize = COLOURS + 1; // of the joined plane

const JOINED_ROW: usize = COLUMNS * CHANNELS; // bytes of one of its rows

const JOINED: usize = ROWS * JOINED_ROW; // bytes of all

// The bytes of the two: their digits are pixel and channel.
const COLOUR: [u8; ROWS * COLUMNS * COLOURS] = *b"\x11\x12\x13\x21\x22\x23\x31\x32\x33\x41\x42\x43";

const ALPHA: [u8; ROWS * COLUMNS] = *b"\x1a\x2a\x3a\x4a";

// The tensor record of the picture. Stride 0: its rows follow one another without gaps.
fn picture() -> Tensor {
    Tensor {
        rank: 2,
        element_size: 1,
        shape: [HEIGHT as u32, WIDTH as u32, 0, 0],
        stride: [0; 4],
    }
}

// A ready-made configuration with one setting: one row in two, one byte in two.
fn thumbnail() -> Config {
    ready_made::copy(2).config.with_step([2, 2, 0, 0])
}

// Rows become columns.
fn turned() -> Config {
    ready_made::permute(2, [1, 0, 0, 0]).config
}

// A compact plane from its last row up: the stride from row to row, written with its sign; 0 where it has none.
fn upside_down(t: Tensor) -> Tensor {
    let row = i32::try_from(t.shape[1]).map_or(0, |n| -n);
    let stride = [row, 0, 0, 0];
    Tensor { stride, ..t }
}

// Why something is not done, with its number of refusal.
#[derive(Clone, Copy)]
enum Failure {
    Refused(u8),
    BadRecord(u8),
    NoRoom(u8),
}

impl fmt::Display for Failure {
    fn fmt<W: fmt::Write>(&self, f: &mut fmt::Formatter<W>) -> fmt::Result {
        match self {
            Failure::Refused(status) => write!(f, "refused {status}"),
            Failure::BadRecord(status) => write!(f, "bad record {status}"),
            Failure::NoRoom(status) => write!(f, "no room {status}"),
        }
    }
}

// What a status says of a move, a pixel or a transfer.
fn accepted(status: u8) -> Result<(), Failure> {
    if status != 0 {
        return Err(Failure::Refused(status));
    }
    Ok(())
}

// A plane of bytes without gaps, printed a row a line.
#[derive(Clone, Copy)]
struct Rows<'a> {
    bytes: &'a [u8],
    width: usize,
}

impl fmt::Display for Rows<'_> {
    fn fmt<W: fmt::Write>(&self, f: &mut fmt::Formatter<W>) -> fmt::Result {
        for row in self.bytes.chunks(self.width.max(1)) {
            writeln!(f, "{}", Hex(row))?;
        }
        Ok(())
    }
}

// A move that is asked for: of the plane that a source holds, laid out as the configuration says.
#[derive(Clone, Copy)]
struct Move<'a> {
    tensor: Tensor,
    config: Config,
    source: &'a [u8],
}

impl Move<'_> {
    // The whole move into the start of a buffer. The limit comes first, since a stranger's record may ask for any room: what needs more
    // than MOST is refused with 13, and what the move would refuse with its number. Of the rest n is the need, just what is lent.
    fn into_start<'b>(self, buffer: &'b mut [u8]) -> Result<Rows<'b>, Failure> {
        let asked = plane::judge(self.tensor, self.config, self.source.len(), MOST);
        accepted(asked.status)?;
        let n = asked.need as usize;
        if buffer.len() < n {
            return Err(Failure::Refused(13));
        }
        let answer = mover::move_plane(self.tensor, self.config, self.source, &mut buffer[..n]);
        accepted(answer.status)?;
        Ok(Rows {
            bytes: &buffer[..n],
            width: answer.extent[1] as usize,
        })
    }

    // One pixel before anything is moved, as a colour picker asks for it. Elements are single bytes here, so the first of the four is
    // the pixel.
    fn pick(self, rt: &impl Print, at: [u32; 4]) -> io::Result<()> {
        let p = mover::pixel(self.tensor, self.config, self.source, at);
        if let Err(failure) = accepted(p.status) {
            return println!(rt; "{failure}");
        }
        let kind = if p.padding { "padding" } else { "picked" };
        println!(rt; "{kind} {:02x}", p.bytes[0])
    }
}

fn print_rows(rt: &impl Print, bytes: &[u8], width: usize) -> io::Result<()> {
    rt.print(Rows { bytes, width })
}

// What a move left, or why there is none.
fn print_moved(rt: &impl Print, moved: Result<Rows<'_>, Failure>) -> io::Result<()> {
    match moved {
        Ok(rows) => print!(rt; "moved 0\n{rows}"),
        Err(failure) => println!(rt; "{failure}"),
    }
}

// A plane of the picture in two planes, with so many channels.
fn plane_of(channels: u32) -> Tensor {
    Tensor {
        rank: 3,
        element_size: 1,
        shape: [ROWS as u32, COLUMNS as u32, channels, 0],
        stride: [0; 4],
    }
}

// Sets a plane into the joined one, behind so many channels. The strides are those of the joined plane.
fn behind(channels: u32) -> Config {
    let stride = [JOINED_ROW as u32, CHANNELS as u32, 1, 0];
    ready_made::concatenate(3, [0, 0, channels, 0], stride).config
}

// Joins colour and alpha along channels. Neither move touches a byte of the other's.
fn join(rt: &impl Print, room: &mut [u8]) -> io::Result<()> {
    let colour = mover::move_plane(plane_of(COLOURS as u32), behind(0), &COLOUR, room);
    let alpha = mover::move_plane(plane_of(1), behind(COLOURS as u32), &ALPHA, room);
    println!(rt; "colour {}", colour.status)?;
    println!(rt; "alpha {}", alpha.status)?;
    if colour.status != 0 || alpha.status != 0 {
        return Ok(());
    }
    print_rows(rt, room, JOINED_ROW)
}

// A part of the memory: length bytes, from byte start on.
fn part(start: usize, length: usize) -> Part {
    Part {
        start: start as u64,
        length: length as u64,
    }
}

// A transfer of the picture within the memory, from the part that holds it into another.
fn job(config: Config, source: Part, destination: Part) -> Job {
    Job {
        source,
        destination,
        tensor: picture(),
        config,
    }
}

// A memory, and the table of the transfers over it. Each call hands back the next table, which is kept here.
#[derive(Drop)]
struct Memory<'a> {
    table: Table,
    bytes: &'a mut [u8],
}

impl Memory<'_> {
    // The handle of a transfer that is now prepared.
    fn prepare(&mut self, job: Job) -> Result<u32, Failure> {
        let made = self.table.prepare(self.bytes, job);
        self.table = made.table;
        accepted(made.status)?;
        Ok(made.handle)
    }

    fn start(&mut self, handle: u32) {
        self.table = self.table.start(self.bytes, handle).table;
    }

    fn step(&mut self, handle: u32, budget: u64) {
        self.table = self.table.step(self.bytes, handle, budget).table;
    }

    // A transfer that is not done is not released: so the number tells whether all went well.
    fn release(&mut self, handle: u32) -> u8 {
        let less = self.table.release(self.bytes, handle);
        self.table = less.table;
        less.status
    }

    fn is_done(&self, handle: u32) -> bool {
        matches!(self.table.poll(handle), Poll::Done)
    }

    // Steps two running transfers by turns until both are done. Each turn moves at least one element of each that is not done (a
    // step of one that is done is refused and changes nothing), and neither has more elements than the memory has bytes: so there
    // are turns enough.
    fn step_by_turns(&mut self, first: u32, second: u32) {
        for _ in 0..self.bytes.len() {
            self.step(first, BUDGET);
            self.step(second, BUDGET);
            if self.is_done(first) && self.is_done(second) {
                return;
            }
        }
    }
}

// Starts two prepared transfers, and releases them once they are done.
fn run_both(rt: &impl Print, memory: &mut Memory<'_>, a: u32, b: u32) -> io::Result<()> {
    memory.start(a);
    memory.start(b);
    memory.step_by_turns(a, b);
    println!(rt; "released {}", memory.release(a))?;
    println!(rt; "released {}", memory.release(b))
}

// Two transfers over one memory that holds the picture: the thumbnail, and the picture turned.
fn transfer_both(rt: &impl Print, bytes: &mut [u8]) -> io::Result<()> {
    let table = Table::fresh(bytes.len() as u64).table;
    let mut memory = Memory { table, bytes };
    let from = part(0, PICTURE);
    let small = memory.prepare(job(thumbnail(), from, part(SMALL_AT, SMALL)));
    let large = memory.prepare(job(turned(), from, part(TURNED_AT, PICTURE)));
    match (small, large) {
        (Ok(a), Ok(b)) => run_both(rt, &mut memory, a, b),
        (Err(failure), _) | (_, Err(failure)) => println!(rt; "{failure}"),
    }
}

// Blocks that the keeper granted, from number first on.
#[derive(Clone, Copy)]
struct Run {
    first: u32,
    blocks: u32,
}

// A memory whose room is kept: the word says which blocks are taken.
#[derive(Drop)]
struct Kept<'a> {
    memory: Memory<'a>,
    word: u64,
}

impl Kept<'_> {
    // Each request is given the word that the one before handed back, so no block is granted twice.
    fn request(&mut self, blocks: u32) -> Result<Run, Failure> {
        let granted = keeper::request(self.word, blocks);
        if granted.status != 0 {
            return Err(Failure::NoRoom(granted.status));
        }
        self.word = granted.word;
        Ok(Run {
            first: granted.first,
            blocks,
        })
    }

    // The part of the memory that a run is. (Where part_of were refused, it would be empty, and prepare would refuse the job.)
    fn part(&self, run: Run) -> Part {
        keeper::part_of(self.memory.bytes.len() as u64, run.first, run.blocks).part
    }

    fn give_back(&mut self, run: Run) -> u8 {
        let back = keeper::give_back(self.memory.table, self.word, run.first, run.blocks);
        self.word = back.word;
        back.status
    }

    // Prepares the thumbnail in room of its own, and tells its handle and its run. The picture's run is asked for first, so it is the
    // lowest: the memory's start, where the picture stands.
    fn prepare_thumbnail(&mut self) -> Result<(u32, Run), Failure> {
        let large = self.request(PICTURE_BLOCKS)?;
        let small = self.request(SMALL_BLOCKS)?;
        let made = job(thumbnail(), self.part(large), self.part(small));
        Ok((self.memory.prepare(made)?, small))
    }
}

// A transfer in room that the keeper grants, which nobody else's parts meet. Its run is given back before it is released, which is
// refused with 33, and after that.
fn transfer_kept(rt: &impl Print, bytes: &mut [u8]) -> io::Result<()> {
    let table = Table::fresh(bytes.len() as u64).table;
    let memory = Memory { table, bytes };
    let mut kept = Kept { memory, word: 0 };
    let (handle, run) = match kept.prepare_thumbnail() {
        Ok(made) => made,
        Err(failure) => return println!(rt; "{failure}"),
    };
    println!(rt; "given back {}", kept.give_back(run))?;
    kept.memory.start(handle);
    kept.memory.step(handle, u64::MAX);
    println!(rt; "released {}", kept.memory.release(handle))?;
    println!(rt; "given back {}", kept.give_back(run))?;
    println!(rt; "free blocks {}", keeper::free_blocks(kept.word))
}

// Appends the two moves to a list that was just started, as a camera stores them beside the picture. Each goes behind the length that
// the one before it told. (A refused append tells 0: who goes on after one keeps the length before.)
fn append_both(rt: &impl Print, buffer: &mut [u8]) -> io::Result<()> {
    let small = list::append(buffer, list::HEAD, picture(), thumbnail());
    let large = list::append(buffer, small.length, picture(), turned());
    println!(rt; "appended {}", small.status)?;
    println!(rt; "appended {}", large.status)
}

// Makes the move of a record that was read. A bad one has its number of refusal.
fn move_read<'a>(r: Reading, source: &[u8], buffer: &'a mut [u8]) -> Result<Rows<'a>, Failure> {
    if r.status != 0 {
        return Err(Failure::BadRecord(r.status));
    }
    let asked = Move {
        tensor: r.tensor,
        config: r.config,
        source,
    };
    asked.into_start(buffer)
}

// Makes the move of each record, by number, as record_at takes it. A refused list has none, and those behind a bad record are still read.
fn move_listed(rt: &impl Print, bytes: &[u8], source: &[u8], buffer: &mut [u8]) -> io::Result<()> {
    for k in 0..list::record_count(bytes) {
        let r = list::record_at(bytes, k).reading;
        print_moved(rt, move_read(r, source, buffer))?;
    }
    Ok(())
}

// The thumbnail in a frame of one pixel, of the picture's zero point and not of zeros.
fn framed() -> Config {
    let small = thumbnail().with_fill(ZERO_POINT);
    small.with_pre([1, 1, 0, 0]).with_post([1, 1, 0, 0])
}

// Writes a move's record into the room, which has to be just as long as the record is, reads it, and makes the move.
fn write_and_move(
    rt: &impl Print,
    asked: Move<'_>,
    room: &mut [u8],
    buffer: &mut [u8],
) -> io::Result<()> {
    let f = record::write(asked.tensor, asked.config, room);
    println!(rt; "written {}", f.status)?;
    print_moved(rt, move_read(record::read(room), asked.source, buffer))
}

// A plane of one pixel, of four bytes.
fn pixel() -> Tensor {
    Tensor {
        rank: 1,
        element_size: 4,
        shape: [1, 0, 0, 0],
        stride: [0; 4],
    }
}

// Sets it far behind in a larger plane: the need is (1 + 65,534 x 2,147,483,647) x 4, which are 562,932,773,289,996 bytes.
fn far() -> Config {
    ready_made::concatenate(1, [65534, 0, 0, 0], [2147483647, 0, 0, 0]).config
}

// Moves the picture itself to the memory's start, where transfers read it, makes two of them, and prints what they left.
fn show_transfers(rt: &impl Print, copied: Move<'_>, mem: &mut [u8; MEMORY]) -> io::Result<()> {
    print_moved(rt, copied.into_start(mem))?;
    transfer_both(rt, mem)?;
    print_rows(rt, &mem[SMALL_AT..TURNED_AT], WIDTH / 2)?;
    print_rows(rt, &mem[TURNED_AT..], HEIGHT)
}

// The same with one transfer, in room that is kept.
fn show_kept(rt: &impl Print, copied: Move<'_>) -> io::Result<()> {
    let mut kept = [0u8; KEPT];
    print_moved(rt, copied.into_start(&mut kept))?;
    transfer_kept(rt, &mut kept)?;
    print_rows(rt, &kept[PICTURE..PICTURE + SMALL], WIDTH / 2)
}

// Of the thumbnail in its frame: a pixel of the frame, the first within it, and one that is not there.
fn pick_framed(rt: &impl Print, framed: Move<'_>) -> io::Result<()> {
    framed.pick(rt, [0, 0, 0, 0])?;
    framed.pick(rt, [1, 1, 0, 0])?;
    framed.pick(rt, [4, 0, 0, 0])
}

fn main(rt: HostRuntime) -> io::Result<()> {
    let small = Move {
        tensor: picture(),
        config: thumbnail(),
        source: &PIXELS,
    };
    let mut mem = [0u8; MEMORY];
    print_moved(&rt, small.into_start(&mut mem))?;
    let tensor = upside_down(picture());
    print_moved(&rt, Move { tensor, ..small }.into_start(&mut mem))?;
    let mut joined = [0u8; JOINED];
    join(&rt, &mut joined)?;
    let config = ready_made::copy(2).config;
    let copied = Move { config, ..small };
    show_transfers(&rt, copied, &mut mem)?;
    show_kept(&rt, copied)?;
    let mut burst = [0u8; LISTED];
    println!(&rt; "started {}", list::start(&mut burst))?;
    append_both(&rt, &mut burst)?;
    move_listed(&rt, &burst, &PIXELS, &mut mem)?;
    let config = framed();
    let framed = Move { config, ..small };
    pick_framed(&rt, framed)?;
    let mut filled = [0u8; record::FILLED_LENGTH];
    write_and_move(&rt, framed, &mut filled, &mut mem)?;
    let far = Move {
        tensor: pixel(),
        config: far(),
        source: &PIXELS,
    };
    let mut alone = [0u8; record::LENGTH];
    write_and_move(&rt, far, &mut alone, &mut mem)
}
