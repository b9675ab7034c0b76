// The two versions of a record. Version 2 is version 1 with the fill at the end; a fill of 0 is written as version 1. A version stays the
// number that the bytes have: fields_fault takes any number, so an enum would be made of a number and turned back wherever it is used.
ghost use Rattle.std.specs.Prelude.{◌≡◌};
ghost use Rattle.record.specs.Layout.{length_of, version_by_length, version_for};
ghost use Rattle.record.specs.Records.{length_in};

use crate::layout;
use crate::numbers::part;
use plane::Config;

// The bytes of a record of that version; any version but 2 counts as 1.
fn length_of(version: u16) -> usize
    ensures { result ≡ length_of version }
{
    if version == layout::VERSION_2 {
        return layout::FILLED_LENGTH;
    }
    layout::LENGTH
}

// The version of a record of n bytes.
pub(crate) fn version_by_length(n: usize) -> u16
    ensures { result ≡ version_by_length n }
{
    if n == layout::FILLED_LENGTH {
        return layout::VERSION_2;
    }
    layout::VERSION_1
}

// The version that a configuration is written as.
pub(crate) fn version_for(c: Config) -> u16
    ensures { result ≡ version_for c }
{
    if c.fill == 0 {
        return layout::VERSION_1;
    }
    layout::VERSION_2
}

// How long a record is that begins with these bytes, by its version: for who reads from a stream. Bytes that end before the version
// does count as version 1. It judges nothing.
pub fn length_in(bytes: &[u8]) -> usize
    ensures { result ≡ length_in bytes.now }
{
    if bytes.len() < layout::VERSION_END {
        return layout::LENGTH;
    }
    length_of(u16::from_le_bytes(part(bytes, layout::VERSION_AT)))
}

// How long the record of a configuration is: the room that a write asks for.
pub fn length_for(config: Config) -> usize
    ensures { result ≡ length_of (version_for config) }
{
    length_of(version_for(config))
}
