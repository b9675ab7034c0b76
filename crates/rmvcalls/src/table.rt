// Which call a number is: docs/CALLS.md as code. A call's arguments are named in their order on the line, and their types are those
// that the library's call takes: t is a tensor record, c a configuration, and s a sub-tensor's. Each call is a closure, of one argument
// too: of a function that stands in a private module of its crate, no path is proved.
use crate::answers::Out;
use crate::args::Counted;
use crate::calls::Call;
use crate::no_call::NoCall;
use mover::plain;
use plane::{Answer, Config, Tensor};
use ready_made::Made;
use transfers::Table;

const VERSION: u16 = 7; // of docs/CALLS.md

fn plane_call(number: u8, call: &mut Call) -> Result<(), NoCall> {
    match number {
        0x00 => call.ask(|()| VERSION),
        0x01 => call.ask(|t| plane::source_of(t)),
        0x02 => call.ask(|(t, c)| plane::room(t, c)),
        0x03 => call.ask(|(t, c, src, dst)| plane::judge(t, c, src, dst)),
        0x04 => call.ask(|size| plane::element_size(size)),
        0x05 => call.ask(|(t, start)| plane::element_count(t, start)),
        0x06 => call.ask(|(t, s, src)| plane::sub_tensor(t, s, src)),
        0x07 => call.ask(|rank| plane::rank_is_bad(rank)),
        0x08 => call.ask(|()| Tensor::zero()),
        0x09 => call.ask(|()| Config::zero()),
        0x0a => call.ask(|fault| Answer::refused(fault)),
        0x0b => call.ask(|(c, fill): (Config, u32)| c.with_fill(fill)),
        _ => Err(NoCall::Unknown),
    }
}

fn config_call(number: u8, call: &mut Call) -> Result<(), NoCall> {
    match number {
        0x10 => call.ask(|rank| ready_made::copy(rank)),
        0x11 => call.ask(|(rank, offset, size, stride)| {
            ready_made::slice(rank, offset, size, stride)
        }),
        0x12 => call.ask(|(rank, offset, stride)| {
            ready_made::concatenate(rank, offset, stride)
        }),
        0x13 => call.ask(|(rank, step, stride)| ready_made::subsample(rank, step, stride)),
        0x14 => call.ask(|(rank, perm)| ready_made::permute(rank, perm)),
        0x15 => call.ask(|(left, right, top, bottom, stride)| {
            ready_made::pad_chw(left, right, top, bottom, stride)
        }),
        0x16 => call.ask(|(left, right, top, bottom, stride)| {
            ready_made::pad_hwc(left, right, top, bottom, stride)
        }),
        0x17 => call.ask(|(rank, c)| every_array(rank, c)),
        0x18 => call.ask(|(c, offset): (Config, _)| c.with_offset(offset)),
        0x19 => call.ask(|(c, size): (Config, _)| c.with_size(size)),
        0x1a => call.ask(|(c, step): (Config, _)| c.with_step(step)),
        0x1b => call.ask(|(c, offset): (Config, _)| c.with_dst_offset(offset)),
        0x1c => call.ask(|(c, stride): (Config, _)| c.with_dst_stride(stride)),
        0x1d => call.ask(|(c, perm): (Config, _)| c.with_perm(perm)),
        0x1e => call.ask(|(c, pre): (Config, _)| c.with_pre(pre)),
        0x1f => call.ask(|(c, post): (Config, _)| c.with_post(post)),
        _ => Err(NoCall::Unknown),
    }
}

fn mover_call(number: u8, call: &mut Call) -> Result<(), NoCall> {
    match number {
        0x20 => call.change(|(t, c, Counted(src)), dst| mover::move_plane(t, c, src, dst)),
        0x21 => call.ask(|(len, job)| mover::judge_job(len, job)),
        0x22 => call.change(|(job, from, n), mem| mover::advance(mem, job, from, n)),
        0x23 => call.ask(|(p, q)| mover::meets(p, q)),
        0x24 => call.ask(|(t, s, src)| mover::sub_part(t, s, src)),
        0x25 => call.ask(|(t, s, src)| mover::sub_tensor(t, s, src)),
        0x26 => call.change(|(t, c, Counted(src)), dst| plain::move_plane(t, c, src, dst)),
        0x27 => call.change(|(job, from, n), mem| plain::advance(mem, job, from, n)),
        0x28 => call.ask(|(t, c, at, src)| mover::pixel(t, c, src, at)),
        _ => Err(NoCall::Unknown),
    }
}

fn record_call(number: u8, call: &mut Call) -> Result<(), NoCall> {
    match number {
        0x30 => call.ask(|bytes| record::read(bytes)),
        0x31 => call.change(|(t, c), room| record::write(t, c, room)),
        0x32 => call.ask(|bytes| list::list_fault(bytes)),
        0x33 => call.ask(|bytes| list::record_count(bytes)),
        0x34 => call.ask(|(k, bytes)| list::record_at(bytes, k)),
        0x35 => call.ask(|(k, bytes)| list::place_after(bytes, k)),
        0x36 => call.ask(|bytes| list::first_two(bytes)),
        0x37 => call.change(|(), buffer| list::start(buffer)),
        0x38 => call.change(|(t, c, len), buffer| list::append(buffer, len, t, c)),
        0x39 => call.ask(|bytes| record::length_in(bytes)),
        0x3a => call.ask(|c| record::length_for(c)),
        0x3b => call.ask(|(version, t, c)| record::fields_fault(version, t, c)),
        _ => Err(NoCall::Unknown),
    }
}

fn table_call(number: u8, call: &mut Call) -> Result<(), NoCall> {
    match number {
        0x40 => call.ask(|length| Table::fresh(length)),
        0x41 => call.ask(|(table, job, mem): (Table, _, _)| table.prepare(mem, job)),
        0x42 => call.ask(|(table, handle, mem): (Table, _, _)| table.start(mem, handle)),
        0x43 => call.change(|(table, handle, n): (Table, _, _), mem| table.step(mem, handle, n)),
        0x44 => call.ask(|(table, handle, mem): (Table, _, _)| table.release(mem, handle)),
        0x45 => call.ask(|(table, handle): (Table, _)| table.poll(handle)),
        _ => Err(NoCall::Unknown),
    }
}

fn keeper_call(number: u8, call: &mut Call) -> Result<(), NoCall> {
    match number {
        0x50 => call.ask(|(word, n)| keeper::request(word, n)),
        0x51 => call.ask(|(table, word, first, n)| keeper::give_back(table, word, first, n)),
        0x52 => call.ask(|word| keeper::free_blocks(word)),
        0x53 => call.ask(|word| keeper::free_before_first_taken(word)),
        0x54 => call.ask(|(length, first, n)| keeper::part_of(length, first, n)),
        _ => Err(NoCall::Unknown),
    }
}

// 17: every array as given; the fill is dropped.
fn every_array(rank: u8, c: Config) -> Made {
    ready_made::all(
        rank,
        c.offset,
        c.size,
        c.step,
        c.dst_offset,
        c.dst_stride,
        c.perm,
        c.pre,
        c.post,
    )
}

// The first digit of a call's number says whose it is.
fn call_numbered(number: u8, call: &mut Call) -> Result<(), NoCall> {
    match number >> 4 {
        0 => plane_call(number, call),
        1 => config_call(number, call),
        2 => mover_call(number, call),
        3 => record_call(number, call),
        4 => table_call(number, call),
        5 => keeper_call(number, call),
        _ => Err(NoCall::Unknown),
    }
}

const NO_CALL: u8 = 0xff; // in the place of a number: a reason follows

// The number stands first in a line, and first in its answer.
fn call_line(line: Result<&[u8], NoCall>, out: &mut Out) -> Result<(), NoCall> {
    let (number, args) = line?.split_first().ok_or(NoCall::Unknown)?;
    out.put(*number);
    let mut call = Call::new(args, out);
    call_numbered(*number, &mut call)
}

// Makes the call of a line, and puts what it answers, or why the line is no call.
pub(crate) fn answer(line: Result<&[u8], NoCall>, out: &mut Out) {
    if let Err(reason) = call_line(line, out) {
        out.clear();
        out.put(NO_CALL);
        out.put(reason as u8);
    }
}
