// rmvlist: reads a list of moves from standard input, and tells of each record what it holds and what room it asks for.
#![tactic(auto)]

use std::io;

mod lines; // what is printed

const RECORDS: usize = 1000; // records of the longest list

const LONGEST: usize = list::HEAD + RECORDS * record::LENGTH; // bytes of that list

// A line for the list, and then one for each of its records, by number, as record_at takes it. A refused list has none.
fn show(rt: &impl Print, bytes: &[u8]) -> io::Result<()> {
    let count = list::record_count(bytes);
    lines::head(rt, list::list_fault(bytes), count)?;
    for k in 0..count {
        lines::record(rt, list::record_at(bytes, k))?;
    }
    Ok(())
}

// One byte more than the longest list is read, so that a longer input is told from it; it is not looked at.
fn main(rt: HostRuntime) -> io::Result<()> {
    let mut bytes = [0u8; LONGEST + 1];
    let n = input::read_full(&mut rt.reader(), &mut bytes)?;
    if LONGEST < n {
        return lines::too_long(&rt, LONGEST, RECORDS);
    }
    show(&rt, &bytes[..n])
}
