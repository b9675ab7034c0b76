// What more than one program prints: numbers on a line, and bytes in hexadecimal.
#![tactic(auto)]

use std::fmt;

// Numbers in decimal, each after a blank.
#[derive(Drop)]
pub struct Entries<'a, T>(pub &'a [T]);

impl<T: fmt::Display> fmt::Display for Entries<'_, T> {
    fn fmt<W: fmt::Write>(&self, f: &mut fmt::Formatter<W>) -> fmt::Result {
        for x in self.0 {
            write!(f, " {x}")?;
        }
        Ok(())
    }
}

// Bytes in hexadecimal, with a blank between any two.
#[derive(Clone, Copy)]
pub struct Hex<'a>(pub &'a [u8]);

impl fmt::Display for Hex<'_> {
    fn fmt<W: fmt::Write>(&self, f: &mut fmt::Formatter<W>) -> fmt::Result {
        let Some((first, others)) = self.0.split_first() else {
            return Ok(());
        };
        write!(f, "{first:02x}")?;
        for byte in others {
            write!(f, " {byte:02x}")?;
        }
        Ok(())
    }
}
