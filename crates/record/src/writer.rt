// A record written.
ghost use Rattle.std.specs.Prelude.{◌≡◌, ◌≤◌, length};
ghost use Rattle.std.proofs.lemmas.List.Edits.{sets};
ghost use Rattle.faults.specs.Faults.{outcome};
ghost use Rattle.plane.specs.Numbers.{little};
ghost use Rattle.record.specs.Layout.{record_length, fill_width, length_of, version_for, head_bytes};
ghost use Rattle.record.specs.Records.{write_fault, written_room};
ghost use Rattle.record.specs.Private.{tensor_bytes, config_at, config_bytes};

use crate::checks::{check_fields, fault_of};
use crate::layout;
use crate::numbers::{put, put_words, words_of};
use crate::versions::{length_for, version_for};
use plane::{Config, Fault, Tensor};

// Mark, version, rank and element size.
fn put_head(room: &mut [u8], version: u16, rank: u8, size: u8)
    requires { record_length ≤ length room.old }
    ensures { room.new ≡ sets room.old 0 (head_bytes version rank size) }
{
    put(room, 0, &layout::MARK);
    put(room, layout::VERSION_AT, &version.to_le_bytes());
    put(room, layout::RANK, &[rank, size]);
}

// The bytes up to the end of the strides.
fn put_tensor(room: &mut [u8], version: u16, t: Tensor)
    requires { record_length ≤ length room.old }
    ensures { room.new ≡ sets room.old 0 (tensor_bytes version t) }
{
    put_head(room, version, t.rank, t.element_size);
    put_words(room, layout::SHAPE, t.shape);
    put_words(room, layout::STRIDE, words_of(t.stride));
}

// The bytes from there to the end of the groups.
fn put_config(room: &mut [u8], c: Config)
    requires { record_length ≤ length room.old }
    ensures { room.new ≡ sets room.old config_at (config_bytes c) }
{
    put_words(room, layout::OFFSET, c.offset);
    put_words(room, layout::SIZE, c.size);
    put_words(room, layout::STEP, c.step);
    put_words(room, layout::DST_OFFSET, c.dst_offset);
    put_words(room, layout::DST_STRIDE, c.dst_stride);
    put(room, layout::PERM, &c.perm);
    put(room, layout::PRE, &c.pre);
    put(room, layout::POST, &c.post);
}

// The fill, where it is written.
fn put_fill(room: &mut [u8], c: Config)
    requires { length room.old ≡ length_of (version_for c) }
    ensures { room.new ≡ sets room.old record_length (little (fill_width (version_for c)) c.fill) }
{
    if c.fill == 0 {
        return;
    }
    put(room, layout::FILL, &c.fill.to_le_bytes());
}

// 25, 1, 2 or 28, for a room of n bytes.
fn check_write(t: Tensor, c: Config, n: usize) -> Result<(), Fault>
    ensures { result ≡ outcome (write_fault t c n) tt }
{
    if n != length_for(c) {
        return Err(Fault { status: 25, dim: 0 });
    }
    check_fields(version_for(c), &t, &c)
}

// The record into a room of its length, or a refusal and the room as it was. A fill of 0 is written as version 1.
pub fn write(tensor: Tensor, config: Config, room: &mut [u8]) -> Fault
    ensures answered { result ≡ write_fault tensor config (length room.old) }
    ensures written { room.new ≡ written_room tensor config room.old }
{
    // the public answer is the fault with its number, which `write_fault` says; and it decides what is written
    let f = fault_of(check_write(tensor, config, room.len()));
    if f.status == 0 {
        put_tensor(room, version_for(config), tensor);
        put_config(room, config);
        put_fill(room, config);
    }
    f
}
