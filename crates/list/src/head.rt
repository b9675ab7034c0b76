// What is wrong with a list, and how many records it has. No record is looked at.
ghost use Rattle.std.specs.Prelude.{◌≡◌};
ghost use Rattle.faults.specs.Faults.{outcome};
ghost use Rattle.list.specs.Lists.{count_in, list_fault, record_count};

use crate::layout;
use plane::Fault;

// The count, or 25 for bytes without a whole head, 26, 27, or 30 for a count that the bytes do not have.
pub(crate) fn check_list(bytes: &[u8]) -> Result<u16, Fault>
    ensures { result ≡ outcome (list_fault bytes.now) (count_in bytes.now) }
{
    if bytes.len() < layout::HEAD {
        return Err(Fault { status: 25, dim: 0 });
    }
    if !bytes.starts_with(&layout::MARK) {
        return Err(Fault { status: 26, dim: 0 });
    }
    let version = u16::from_le_bytes([bytes[layout::VERSION_AT], bytes[layout::VERSION_AT + 1]]);
    if version != layout::VERSION {
        return Err(Fault { status: 27, dim: 0 });
    }
    let count = u16::from_le_bytes([bytes[layout::COUNT_AT], bytes[layout::COUNT_AT + 1]]);
    if bytes.len() != layout::HEAD + record::LENGTH * usize::from(count) {
        return Err(Fault { status: 30, dim: 0 });
    }
    Ok(count)
}

// What is wrong with a list, by its number; or 0. The number is what it promises, so it is no Result.
pub fn list_fault(bytes: &[u8]) -> u8
    ensures { result ≡ (list_fault bytes.now).status }
{
    check_list(bytes).err().map_or(0, |fault| fault.status)
}

// How many records there are to read: none in a refused list.
pub fn record_count(bytes: &[u8]) -> usize
    ensures { result ≡ record_count bytes.now }
{
    check_list(bytes).map_or(0, usize::from)
}
