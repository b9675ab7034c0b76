// What rmvpixel prints. An answer's number is printed whether it is refused or not, so answers stay the records that they are.
use mover::PixelAnswer;
use output::Hex;
use std::io;

// The one line of arguments that are no coordinate of the plane.
pub(crate) fn no_coordinate(rt: &impl Print) -> io::Result<()> {
    rt.println("give a number from 0 to 4294967295 for each dimension of the plane")
}

// Status and dimension.
pub(crate) fn status(rt: &impl Print, status: u8, dim: u8) -> io::Result<()> {
    println!(rt; "status {status} dim {dim}")
}

// Status and dimension, and of an accepted pixel its bytes and whether it is padding.
pub(crate) fn pixel(rt: &impl Print, p: PixelAnswer, size: u8) -> io::Result<()> {
    status(rt, p.status, p.dim)?;
    if p.status != 0 {
        return Ok(());
    }
    let bytes = Hex(&p.bytes[..usize::from(size).min(4)]);
    println!(rt; "{bytes}{}", if p.padding { " padding" } else { "" })
}
