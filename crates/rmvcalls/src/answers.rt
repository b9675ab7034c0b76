// What a call answers, as a line of hexadecimal digits: its fields one after another, as docs/CALLS.md lists them. Numbers are
// little endian.
ghost use Rattle.std.specs.Prelude.{◌≤◌};
ghost use Rattle.rmvcalls.specs.declared.answers.TheConstants.{LINE};

use crate::lines::LONGEST;
use keeper::{GivenBack, Granted, Placed};
use list::{Appended, FirstTwo, Numbered};
use mover::{Advanced, Job, Part, PixelAnswer, Verdict};
use plane::{Answer, Config, Count, Fault, RoomAnswer, Source, SubTensor, Tensor};
use ready_made::Made;
use record::Reading;
use transfers::{
    Changed, DONE, FREE, FreshTable, PREPARED, Poll, Prepared, RUNNING, Slot, Stepped, Table,
};

// The longest answer, a part of a source, is shorter than the longest call. A byte has two digits, and the line a newline.
const LINE: usize = 2 * LONGEST + 1;

const DIGITS: [u8; 16] = *b"0123456789abcdef";

// An answer's line so far, and how long it is: no String, since the programs set no memory aside. A character that has no place is left out.
#[derive(Drop)]
pub(crate) struct Out {
    text: [u8; LINE],
    len: usize,
    ghost within: { len ≤ LINE },
}

impl Out {
    pub(crate) fn new() -> Out {
        Out {
            text: [0; LINE],
            len: 0,
        }
    }

    pub(crate) fn clear(&mut self) {
        self.len = 0;
    }

    pub(crate) fn put<T: Put>(&mut self, x: T) {
        x.put(self);
    }

    pub(crate) fn end_line(&mut self) {
        self.push(b'\n');
    }

    pub(crate) fn text(&self) -> &[u8] {
        &self.text[..self.len]
    }

    fn push(&mut self, ch: u8) {
        if let Some(place) = self.text.get_mut(self.len) {
            *place = ch;
            self.len += 1;
        }
    }
}

// What can stand in an answer.
pub(crate) trait Put {
    // Puts it behind what is there.
    fn put(self, out: &mut Out);
}

impl Put for u8 {
    fn put(self, out: &mut Out) {
        out.push(DIGITS[(self >> 4) as usize]);
        out.push(DIGITS[(self & 15) as usize]);
    }
}

impl Put for bool {
    fn put(self, out: &mut Out) {
        out.put(u8::from(self));
    }
}

// Each number has an impl of its own, since the library has no trait of what is made to bytes.
impl Put for u16 {
    fn put(self, out: &mut Out) {
        out.put(self.to_le_bytes());
    }
}

impl Put for u32 {
    fn put(self, out: &mut Out) {
        out.put(self.to_le_bytes());
    }
}

impl Put for i32 {
    fn put(self, out: &mut Out) {
        out.put(self.to_le_bytes());
    }
}

impl Put for u64 {
    fn put(self, out: &mut Out) {
        out.put(self.to_le_bytes());
    }
}

// A length, a count, or a place in a list: a u64.
impl Put for usize {
    fn put(self, out: &mut Out) {
        out.put(self.to_le_bytes());
    }
}

impl<T: Put + Copy, const N: usize> Put for [T; N] {
    fn put(self, out: &mut Out) {
        for x in &self {
            out.put(*x);
        }
    }
}

// A memory, or a part of one.
impl Put for &[u8] {
    fn put(self, out: &mut Out) {
        for x in self {
            out.put(*x);
        }
    }
}

impl Put for Fault {
    fn put(self, out: &mut Out) {
        out.put(self.status);
        out.put(self.dim);
    }
}

impl Put for Tensor {
    fn put(self, out: &mut Out) {
        out.put(self.rank);
        out.put(self.element_size);
        out.put(self.shape);
        out.put(self.stride);
    }
}

impl Put for Config {
    fn put(self, out: &mut Out) {
        out.put(self.offset);
        out.put(self.size);
        out.put(self.step);
        out.put(self.dst_offset);
        out.put(self.dst_stride);
        out.put(self.perm);
        out.put(self.pre);
        out.put(self.post);
        out.put(self.fill);
    }
}

impl Put for Source {
    fn put(self, out: &mut Out) {
        out.put(self.fault);
        out.put(self.stride);
        out.put(self.span);
    }
}

impl Put for Answer {
    fn put(self, out: &mut Out) {
        out.put(self.status);
        out.put(self.dim);
        out.put(self.rank);
        out.put(self.element_size);
        out.put(self.extent);
        out.put(self.stride);
        out.put(self.need);
    }
}

impl Put for RoomAnswer {
    fn put(self, out: &mut Out) {
        out.put(self.answer);
        out.put(self.span);
    }
}

impl Put for Count {
    fn put(self, out: &mut Out) {
        out.put(self.status);
        out.put(self.dim);
        out.put(self.count);
    }
}

impl Put for SubTensor {
    fn put(self, out: &mut Out) {
        out.put(self.status);
        out.put(self.dim);
        out.put(self.tensor);
        out.put(self.byte);
    }
}

impl Put for Made {
    fn put(self, out: &mut Out) {
        out.put(self.status);
        out.put(self.config);
    }
}

impl Put for Verdict {
    fn put(self, out: &mut Out) {
        out.put(self.status);
        out.put(self.dim);
        out.put(self.total);
    }
}

impl Put for Advanced {
    fn put(self, out: &mut Out) {
        out.put(self.status);
        out.put(self.dim);
        out.put(self.count);
    }
}

impl Put for PixelAnswer {
    fn put(self, out: &mut Out) {
        out.put(self.status);
        out.put(self.dim);
        out.put(self.bytes);
        out.put(self.padding);
    }
}

impl Put for Reading {
    fn put(self, out: &mut Out) {
        out.put(self.status);
        out.put(self.dim);
        out.put(self.tensor);
        out.put(self.config);
    }
}

impl Put for Numbered {
    fn put(self, out: &mut Out) {
        out.put(self.number);
        out.put(self.reading);
    }
}

impl Put for FirstTwo {
    fn put(self, out: &mut Out) {
        out.put(self.status);
        out.put(self.count);
        out.put(self.first);
        out.put(self.second);
    }
}

impl Put for Appended {
    fn put(self, out: &mut Out) {
        out.put(self.status);
        out.put(self.dim);
        out.put(self.length);
    }
}

impl Put for Part {
    fn put(self, out: &mut Out) {
        out.put(self.start);
        out.put(self.length);
    }
}

impl Put for Job {
    fn put(self, out: &mut Out) {
        out.put(self.source);
        out.put(self.destination);
        out.put(self.tensor);
        out.put(self.config);
    }
}

impl Put for Slot {
    fn put(self, out: &mut Out) {
        out.put(self.state);
        out.put(self.job);
        out.put(self.moved);
    }
}

impl Put for Table {
    fn put(self, out: &mut Out) {
        out.put(self.length);
        out.put(self.slots);
    }
}

impl Put for FreshTable {
    fn put(self, out: &mut Out) {
        out.put(self.status);
        out.put(self.table);
    }
}

impl Put for Prepared {
    fn put(self, out: &mut Out) {
        out.put(self.status);
        out.put(self.dim);
        out.put(self.handle);
        out.put(self.table);
    }
}

impl Put for Changed {
    fn put(self, out: &mut Out) {
        out.put(self.status);
        out.put(self.table);
    }
}

impl Put for Stepped {
    fn put(self, out: &mut Out) {
        out.put(self.status);
        out.put(self.count);
        out.put(self.table);
    }
}

// A poll in numbers: its status, its state, and what is left.
impl Put for Poll {
    fn put(self, out: &mut Out) {
        let (status, state, left) = match self {
            Poll::Free => (0, FREE, 0),
            Poll::Prepared(left) => (0, PREPARED, left),
            Poll::Running(left) => (0, RUNNING, left),
            Poll::Done => (0, DONE, 0),
            Poll::Refused(status) => (status, FREE, 0),
        };
        out.put(status);
        out.put(state);
        out.put(left);
    }
}

impl Put for Granted {
    fn put(self, out: &mut Out) {
        out.put(self.status);
        out.put(self.first);
        out.put(self.word);
    }
}

impl Put for GivenBack {
    fn put(self, out: &mut Out) {
        out.put(self.status);
        out.put(self.word);
    }
}

impl Put for Placed {
    fn put(self, out: &mut Out) {
        out.put(self.status);
        out.put(self.part);
    }
}
