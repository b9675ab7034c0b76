// What rmvlist prints. An answer's number is printed whether it is refused or not, so answers stay the records that they are.
use list::Numbered;
use output::Entries;
use plane::{Config, Tensor};
use std::{fmt, io};

// The one line of an input that is longer than the longest list.
pub(crate) fn too_long(rt: &impl Print, bytes: usize, records: usize) -> io::Result<()> {
    println!(rt; "input longer than {bytes} bytes, which are {records} records")
}

// The status of a list, and how many records one that is not refused has.
pub(crate) fn head(rt: &impl Print, status: u8, count: usize) -> io::Result<()> {
    if status != 0 {
        return println!(rt; "status {status}");
    }
    println!(rt; "status 0 records {count}")
}

// Rank, element size and shape, as many entries as the rank.
#[derive(Drop)]
struct Plane(Tensor);

impl fmt::Display for Plane {
    fn fmt<W: fmt::Write>(&self, f: &mut fmt::Formatter<W>) -> fmt::Result {
        let t = self.0;
        let shape = Entries(&t.shape[..usize::from(t.rank).min(4)]);
        write!(f, "rank {} element {} shape{shape}", t.rank, t.element_size)
    }
}

// What the room question says: status and dimension, and the bytes of source and destination for a move that is not refused.
#[derive(Drop)]
struct Room(Tensor, Config);

impl fmt::Display for Room {
    fn fmt<W: fmt::Write>(&self, f: &mut fmt::Formatter<W>) -> fmt::Result {
        let asked = plane::room(self.0, self.1);
        let a = asked.answer;
        write!(f, "room {} dim {}", a.status, a.dim)?;
        if a.status != 0 {
            return Ok(());
        }
        write!(f, " span {} need {}", asked.span, a.need)
    }
}

// A record's number, status and dimension, and what one that is not refused holds and asks for.
pub(crate) fn record(rt: &impl Print, item: Numbered) -> io::Result<()> {
    let n = item.number;
    let r = item.reading;
    if r.status != 0 {
        return println!(rt; "record {n} status {} dim {}", r.status, r.dim);
    }
    let plane = Plane(r.tensor);
    let room = Room(r.tensor, r.config);
    println!(rt; "record {n} status 0 dim {} {plane} {room}", r.dim)
}
