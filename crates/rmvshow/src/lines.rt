// What rmvshow prints. An answer's number is printed whether it is refused or not, so answers stay the records that they are.
use output::Entries;
use plane::Answer;
use std::io;

// The entries of the dimensions below the rank.
fn kept(rank: u8, entries: &[u32; 4]) -> Entries<'_, u32> {
    Entries(&entries[..usize::from(rank).min(4)])
}

// The low hexadecimal digit of n.
fn digit(n: u8) -> u8 {
    let k = n % 16;
    if k < 10 { b'0' + k } else { b'a' + (k - 10) }
}

const ROW: usize = 256; // bytes printed by one write

// The bytes in hexadecimal on a line, with a blank between any two. A row of them is one text: a formatter, as `output::Hex` has it, is
// handed each byte by itself, which takes longer than the move.
fn line(rt: &impl Print, bytes: &[u8]) -> io::Result<()> {
    let Some((last, others)) = bytes.split_last() else {
        return Ok(());
    };
    for row in others.chunks(ROW) {
        let mut text = [[b' '; 3]; ROW];
        for (place, byte) in text.iter_mut().zip(row) {
            *place = [digit(*byte / 16), digit(*byte), b' '];
        }
        rt.write_all(&text.as_flattened()[..3 * row.len().min(ROW)])?;
    }
    rt.write_all(&[digit(*last / 16), digit(*last), b'\n'])
}

// Status and dimension, and for an accepted move shape, stride and need, and then on one line the first bytes of the room, as many.
pub(crate) fn answer(rt: &impl Print, a: Answer, room: &[u8]) -> io::Result<()> {
    println!(rt; "status {} dim {}", a.status, a.dim)?;
    if a.status != 0 {
        return Ok(());
    }
    let shape = kept(a.rank, &a.extent);
    let stride = kept(a.rank, &a.stride);
    println!(rt; "shape{shape} stride{stride}\nneed {}", a.need)?;
    line(rt, &room[..room.len().min(a.need as usize)])
}
