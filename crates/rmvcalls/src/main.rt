// rmvcalls: makes the public calls that standard input asks for, a line each, and prints each answer whole. docs/CALLS.md
// says what the lines are. Nothing is kept from one line to the next.
#![tactic(auto)]

use answers::Out;
use lines::Line;
use no_call::NoCall;
use std::io;
use std::io::Read;
use table::answer;

mod no_call; // why a line is no call
mod lines; // a line becomes a call's bytes
mod args; // a call's bytes become arguments
mod answers; // what a call answers becomes a line
mod calls; // a call with its arguments is made
mod table; // which call a number is

const CHUNK: usize = 65536; // bytes read at once

// Prints what the call of a line answers, or why it is no call.
fn reply(rt: &impl Print, call: Result<&[u8], NoCall>, out: &mut Out) -> io::Result<()> {
    out.clear();
    answer(call, out);
    out.end_line();
    rt.write_all(out.text())
}

// Takes in one character.
fn next(rt: &impl Print, line: &mut Line, out: &mut Out, ch: u8) -> io::Result<()> {
    if ch != b'\n' {
        line.push(ch);
        return Ok(());
    }
    reply(rt, line.bytes(), out)?;
    line.clear();
    Ok(())
}

// Takes in what was read.
fn feed(rt: &impl Print, line: &mut Line, out: &mut Out, chunk: &[u8]) -> io::Result<()> {
    for ch in chunk {
        next(rt, line, out, *ch)?;
    }
    Ok(())
}

// The input has ended: a line without its newline is no call.
fn end(rt: &impl Print, line: &Line, out: &mut Out) -> io::Result<()> {
    if line.is_empty() {
        return Ok(());
    }
    reply(rt, Err(NoCall::Unended), out)
}

// Answers line after line until the input ends. A proved loop has to end, so it counts more reads than any input takes.
fn run<R: Read>(rt: &impl Print, reader: &mut R) -> io::Result<()> {
    let mut chunk = [0u8; CHUNK];
    let mut line = Line::new();
    let mut out = Out::new();
    for _ in 0..u64::MAX {
        let n = reader.read(&mut chunk)?;
        if n == 0 {
            return end(rt, &line, &mut out);
        }
        feed(rt, &mut line, &mut out, &chunk[..n])?;
    }
    Ok(())
}

fn main(rt: HostRuntime) -> io::Result<()> {
    run(&rt, &mut rt.reader())
}
