// A reader of a list. It does no work of its own: what it answers is what the plain functions say of its bytes and its place.
ghost use Rattle.std.specs.Prelude.{◌≡◌};
ghost use Rattle.list.specs.Readers.{opened, answer, advanced, first_two_of};

use crate::head::{list_fault, record_count};
use crate::records::{place_after, record_at};
use crate::{FirstTwo, ListReader, Numbered, Opened};

// Status, how many records there are, and a reader at the first. A reader of a refused list has no records.
pub fn open<'a>(bytes: &'a [u8]) -> Opened<'a>
    ensures { result ≡ opened bytes.entry }
{
    let status = list_fault(bytes);
    let count = record_count(bytes);
    Opened {
        status,
        count,
        reader: ListReader { bytes, next: 0 },
    }
}

impl<'a> ListReader<'a> {
    // The next record; past the last 39, and the reader stays as it is. It promises a Numbered for ever (`HandedAll`), so it is no
    // Iterator.
    pub fn next(&mut self) -> Numbered
        ensures { (result ≡ answer self.old) × (self.new ≡ advanced self.old) }
    {
        let bytes = self.bytes;
        let at = self.next;
        let item = record_at(bytes, at);
        self.next = place_after(bytes, at);
        item
    }
}

// What opening the list answers, and its first two records, read through the reader; 39 for one that is not there.
pub fn first_two(bytes: &[u8]) -> FirstTwo
    ensures { result ≡ first_two_of bytes.now }
{
    let opened = open(bytes);
    let mut reader = opened.reader;
    let first = reader.next();
    let second = reader.next();
    FirstTwo {
        status: opened.status,
        count: opened.count,
        first,
        second,
    }
}
