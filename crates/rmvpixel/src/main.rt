// rmvpixel: takes a coordinate as its arguments, reads one move record and then its source from standard input, and shows the element
// that the move would store there. Nothing is moved.
#![tactic(auto)]

use crate::coordinates::Coordinate;
use input::{read_full, read_record};
use std::io;

mod coordinates; // numbers from the arguments
mod lines; // what is printed

const SOURCE: usize = 16384; // bytes of the longest source

// An input that ends within the record is refused as a record.
fn show(rt: &impl Print, record: &[u8], source: &[u8], x: Coordinate) -> io::Result<()> {
    let r = record::read(record);
    if r.status != 0 {
        return lines::status(rt, r.status, r.dim);
    }
    let t = r.tensor;
    if x.count < usize::from(t.rank) {
        return lines::no_coordinate(rt);
    }
    let p = mover::pixel(t, r.config, source, x.at);
    lines::pixel(rt, p, t.element_size)
}

// What follows a whole record is the source, up to SOURCE bytes; the rest is not read.
fn main(rt: HostRuntime) -> io::Result<()> {
    let Ok(x) = coordinates::given(&rt) else {
        return lines::no_coordinate(&rt);
    };
    let mut reader = rt.reader();
    let mut bytes = [0u8; record::FILLED_LENGTH];
    let mut source = [0u8; SOURCE];
    let record = read_record(&mut reader, &mut bytes)?;
    let is_whole = record.len() == record::length_in(record);
    let m = if is_whole {
        read_full(&mut reader, &mut source)?
    } else {
        0
    };
    show(&rt, record, &source[..m], x)
}
