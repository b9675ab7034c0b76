// rmvshow: reads one move record and then its source from standard input, moves, and shows what came out.
#![tactic(auto)]

use input::{read_full, read_record};
use plane::{Answer, Fault};
use std::io;

mod lines; // what is printed

const SOURCE: usize = 16384; // bytes of the longest source

const ROOM: usize = 32768; // bytes of the destination

// The answer of the move that a record asks for, over zeros.
fn moved(bytes: &[u8], source: &[u8], room: &mut [u8]) -> Answer {
    let r = record::read(bytes);
    if r.status != 0 {
        return Answer::refused(Fault {
            status: r.status,
            dim: r.dim,
        });
    }
    mover::move_plane(r.tensor, r.config, source, room)
}

// What follows the record is the source, up to SOURCE bytes; the rest is not read. An input that ends within the record is
// refused as a record.
fn main(rt: HostRuntime) -> io::Result<()> {
    let mut reader = rt.reader();
    let mut bytes = [0u8; record::FILLED_LENGTH];
    let mut source = [0u8; SOURCE];
    let mut room = [0u8; ROOM];
    let record = read_record(&mut reader, &mut bytes)?;
    let m = read_full(&mut reader, &mut source)?;
    let a = moved(record, &source[..m], &mut room);
    lines::answer(&rt, a, &room)
}
