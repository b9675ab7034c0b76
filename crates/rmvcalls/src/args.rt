// What a call's bytes stand for: its arguments, one after another, as docs/CALLS.md lists them. Numbers are little endian.
use crate::no_call::NoCall;
use mover::{Job, Part};
use plane::{Config, Fault, SubConfig, Tensor};
use std::mem;
use transfers::{Slot, Table};

// The bytes that no argument has been taken of yet.
#[derive(Clone, Copy)]
pub(crate) struct Args<'a> {
    left: &'a [u8],
}

// What can be an argument.
pub(crate) trait Take<'a>: Sized {
    // Takes it off the front of what is left.
    fn take(args: &mut Args<'a>) -> Result<Self, NoCall>;
}

impl<'a> Args<'a> {
    pub(crate) fn new(bytes: &'a [u8]) -> Args<'a> {
        Args { left: bytes }
    }

    pub(crate) fn take<T: Take<'a>>(&mut self) -> Result<T, NoCall> {
        T::take(self)
    }

    fn array<const N: usize>(&mut self) -> Result<[u8; N], NoCall> {
        let (front, left) = self.left.split_first_chunk().ok_or(NoCall::Length)?;
        self.left = left;
        Ok(*front)
    }

    fn bytes(&mut self, n: usize) -> Result<&'a [u8], NoCall> {
        self.left.split_off(..n).ok_or(NoCall::Length)
    }

    // All that is left of the line.
    pub(crate) fn rest(&mut self) -> &'a [u8] {
        mem::take(&mut self.left)
    }

    // No call has anything behind its last argument.
    pub(crate) fn end(self) -> Result<(), NoCall> {
        if self.left.is_empty() {
            return Ok(());
        }
        Err(NoCall::Length)
    }
}

// Each number has an impl of its own, since the library has no trait of what is made from bytes.
impl<'a> Take<'a> for u8 {
    fn take(args: &mut Args<'a>) -> Result<u8, NoCall> {
        Ok(u8::from_le_bytes(args.array()?))
    }
}

impl<'a> Take<'a> for u16 {
    fn take(args: &mut Args<'a>) -> Result<u16, NoCall> {
        Ok(u16::from_le_bytes(args.array()?))
    }
}

impl<'a> Take<'a> for u32 {
    fn take(args: &mut Args<'a>) -> Result<u32, NoCall> {
        Ok(u32::from_le_bytes(args.array()?))
    }
}

impl<'a> Take<'a> for i32 {
    fn take(args: &mut Args<'a>) -> Result<i32, NoCall> {
        Ok(i32::from_le_bytes(args.array()?))
    }
}

impl<'a> Take<'a> for u64 {
    fn take(args: &mut Args<'a>) -> Result<u64, NoCall> {
        Ok(u64::from_le_bytes(args.array()?))
    }
}

// A length, or a place in a list: a u64.
impl<'a> Take<'a> for usize {
    fn take(args: &mut Args<'a>) -> Result<usize, NoCall> {
        Ok(usize::from_le_bytes(args.array()?))
    }
}

// Four takes and no try_from_fn: in a closure the borrow checker does not cover a take yet, whose bound names a lifetime.
impl<'a, T: Take<'a> + Copy> Take<'a> for [T; 4] {
    fn take(args: &mut Args<'a>) -> Result<[T; 4], NoCall> {
        Ok([args.take()?, args.take()?, args.take()?, args.take()?])
    }
}

impl<'a> Take<'a> for Tensor {
    fn take(args: &mut Args<'a>) -> Result<Tensor, NoCall> {
        Ok(Tensor {
            rank: args.take()?,
            element_size: args.take()?,
            shape: args.take()?,
            stride: args.take()?,
        })
    }
}

impl<'a> Take<'a> for Config {
    fn take(args: &mut Args<'a>) -> Result<Config, NoCall> {
        Ok(Config {
            offset: args.take()?,
            size: args.take()?,
            step: args.take()?,
            dst_offset: args.take()?,
            dst_stride: args.take()?,
            perm: args.take()?,
            pre: args.take()?,
            post: args.take()?,
            fill: args.take()?,
        })
    }
}

impl<'a> Take<'a> for SubConfig {
    fn take(args: &mut Args<'a>) -> Result<SubConfig, NoCall> {
        Ok(SubConfig {
            offset: args.take()?,
            size: args.take()?,
            rank: args.take()?,
        })
    }
}

impl<'a> Take<'a> for Fault {
    fn take(args: &mut Args<'a>) -> Result<Fault, NoCall> {
        Ok(Fault {
            status: args.take()?,
            dim: args.take()?,
        })
    }
}

impl<'a> Take<'a> for Part {
    fn take(args: &mut Args<'a>) -> Result<Part, NoCall> {
        Ok(Part {
            start: args.take()?,
            length: args.take()?,
        })
    }
}

impl<'a> Take<'a> for Job {
    fn take(args: &mut Args<'a>) -> Result<Job, NoCall> {
        Ok(Job {
            source: args.take()?,
            destination: args.take()?,
            tensor: args.take()?,
            config: args.take()?,
        })
    }
}

impl<'a> Take<'a> for Slot {
    fn take(args: &mut Args<'a>) -> Result<Slot, NoCall> {
        Ok(Slot {
            state: args.take()?,
            job: args.take()?,
            moved: args.take()?,
        })
    }
}

impl<'a> Take<'a> for Table {
    fn take(args: &mut Args<'a>) -> Result<Table, NoCall> {
        Ok(Table {
            length: args.take()?,
            slots: args.take()?,
        })
    }
}

// The rest of the line: a source, a list, or a memory.
impl<'a> Take<'a> for &'a [u8] {
    fn take(args: &mut Args<'a>) -> Result<&'a [u8], NoCall> {
        Ok(args.rest())
    }
}

// Bytes behind a word that says how many.
#[derive(Drop)]
pub(crate) struct Counted<'a>(pub(crate) &'a [u8]);

impl<'a> Take<'a> for Counted<'a> {
    fn take(args: &mut Args<'a>) -> Result<Counted<'a>, NoCall> {
        let n: u32 = args.take()?;
        Ok(Counted(args.bytes(n as usize)?))
    }
}

impl<'a> Take<'a> for () {
    fn take(_args: &mut Args<'a>) -> Result<(), NoCall> {
        Ok(())
    }
}

// Each length of a tuple has an impl of its own, since no type stands for tuples of any length.
impl<'a, A: Take<'a> + Drop, B: Take<'a>> Take<'a> for (A, B) {
    fn take(args: &mut Args<'a>) -> Result<(A, B), NoCall> {
        Ok((args.take()?, args.take()?))
    }
}

impl<'a, A: Take<'a> + Drop, B: Take<'a> + Drop, C: Take<'a>> Take<'a> for (A, B, C) {
    fn take(args: &mut Args<'a>) -> Result<(A, B, C), NoCall> {
        Ok((args.take()?, args.take()?, args.take()?))
    }
}

impl<'a, A: Take<'a> + Drop, B: Take<'a> + Drop, C: Take<'a> + Drop, D: Take<'a>> Take<'a>
    for (A, B, C, D) {
    fn take(args: &mut Args<'a>) -> Result<(A, B, C, D), NoCall> {
        Ok((args.take()?, args.take()?, args.take()?, args.take()?))
    }
}

impl<
    'a,
    A: Take<'a> + Drop,
    B: Take<'a> + Drop,
    C: Take<'a> + Drop,
    D: Take<'a> + Drop,
    E: Take<'a>,
> Take<'a> for (A, B, C, D, E) {
    fn take(args: &mut Args<'a>) -> Result<(A, B, C, D, E), NoCall> {
        Ok((
            args.take()?,
            args.take()?,
            args.take()?,
            args.take()?,
            args.take()?,
        ))
    }
}
