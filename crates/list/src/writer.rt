// A list started, and appended to, in a buffer that the caller lends.
ghost use Rattle.std.specs.Prelude.{◌≡◌, ◌≤◌, length, take};
ghost use Rattle.std.proofs.lemmas.List.Edits.{sets};
ghost use Rattle.faults.specs.Faults.{outcome};
ghost use Rattle.plane.specs.Numbers.{little};
ghost use Rattle.list.specs.Layout.{list_head_length, count_place};
ghost use Rattle.list.specs.Lists.{record_count};
ghost use Rattle.list.specs.Writers.{start_fault, started_buffer, append_fault, append_of, appended_buffer};

use crate::head::check_list;
use crate::{Appended, layout};
use plane::{Config, Fault, Tensor};

// Sets the two bytes of the count.
fn put_count(buffer: &mut [u8], count: u16)
    requires { list_head_length ≤ length buffer.old }
    ensures { buffer.new ≡ sets buffer.old count_place (little 2 count) }
{
    buffer[layout::COUNT_AT..layout::HEAD].copy_from_slice(&count.to_le_bytes());
}

// An empty list in the first 7 bytes of the buffer, or 38 and the buffer as it was. The number is what it promises, so it is no Result.
pub fn start(buffer: &mut [u8]) -> u8
    ensures answered { result ≡ (start_fault buffer.old).status }
    ensures written { buffer.new ≡ started_buffer buffer.old }
{
    if buffer.len() < layout::HEAD {
        return 38;
    }
    buffer[..layout::VERSION_AT].copy_from_slice(&layout::MARK);
    buffer[layout::VERSION_AT..layout::COUNT_AT].copy_from_slice(&layout::VERSION.to_le_bytes());
    put_count(buffer, 0);
    0
}

// The fault that another crate's call answers, as the outcome of a check.
fn checked(f: Fault) -> Result<(), Fault>
    ensures { result ≡ outcome f tt }
{
    if f.status != 0 {
        return Err(f);
    }
    Ok(())
}

// How many records the list has that the first length bytes of the buffer are; or 25 to 27, 30, 37, 38, 1, 28, or 27 for a fill. No
// record that the list has already is looked at.
fn check_append(buffer: &[u8], length: usize, tensor: Tensor, config: Config) -> Result<u16, Fault>
    ensures { result ≡ outcome (append_fault buffer.now length tensor config) (record_count (take length buffer.now)) }
{
    if buffer.len() < length {
        return Err(Fault { status: 25, dim: 0 });
    }
    let count = check_list(&buffer[..length])?;
    if count == layout::MOST {
        return Err(Fault { status: 37, dim: 0 });
    }
    if buffer.len() - length < record::LENGTH {
        return Err(Fault { status: 38, dim: 0 });
    }
    checked(record::fields_fault(record::VERSION_1, tensor, config))?;
    let has_fill = config.fill != 0;
    if has_fill {
        return Err(Fault { status: 27, dim: 0 });
    }
    Ok(count)
}

// One record more behind the list, or a refusal with length 0 and the buffer as it was.
pub fn append(buffer: &mut [u8], length: usize, tensor: Tensor, config: Config) -> Appended
    ensures answered { result ≡ append_of buffer.old length tensor config }
    ensures written { buffer.new ≡ appended_buffer buffer.old length tensor config }
{
    match check_append(buffer, length, tensor, config) {
        Ok(count) => {
            // it takes what was just judged: no fault is left
            let end = length + record::LENGTH;
            record::write(tensor, config, &mut buffer[length..end]);
            put_count(buffer, count + 1);
            Appended {
                status: 0,
                dim: 0,
                length: end,
            }
        }
        Err(fault) => Appended {
            status: fault.status,
            dim: fault.dim,
            length: 0,
        },
    }
}
