// Bytes read and set at a place; groups of four numbers as bytes, the lowest byte first; and signed numbers as words, in two's complement.
ghost use Rattle.std.specs.Prelude.{◌≡◌, ◌+◌, ◌≤◌, length};
ghost use Rattle.std.proofs.lemmas.List.Edits.{sets};
ghost use Rattle.record.specs.Layout.{part, twos_words, twos_numbers, four_in, four_bytes};

use std::array;

// The N bytes from byte p on.
pub(crate) fn part<const N: usize>(bytes: &[u8], p: usize) -> [u8; N]
    requires { p + N ≤ length bytes.now }
    ensures { result ≡ part p N bytes.now }
{
    *bytes[p..].first_chunk::<N>().unwrap()
}

// The group of four-byte numbers from byte p on. One of single bytes is just a part.
pub(crate) fn words(bytes: &[u8], p: usize) -> [u32; 4]
    requires { p + 16 ≤ length bytes.now }
    ensures { result ≡ four_in p 4 bytes.now }
{
    array::from_fn(|d| u32::from_le_bytes(part(bytes, p + 4 * d)))
}

// Sets the bytes from byte p on to these.
pub(crate) fn put(room: &mut [u8], p: usize, bytes: &[u8])
    requires { p + length bytes.now ≤ length room.old }
    ensures { room.new ≡ sets room.old p bytes.now }
{
    let end = p + bytes.len();
    room[p..end].copy_from_slice(bytes);
}

// Sets the bytes from byte p on to those of a group of four-byte numbers.
pub(crate) fn put_words(room: &mut [u8], p: usize, xs: [u32; 4])
    requires { p + 16 ≤ length room.old }
    ensures { room.new ≡ sets room.old p (four_bytes 4 xs) }
{
    put(room, p, xs.map(u32::to_le_bytes).as_flattened());
}

// The signed numbers that four words are.
pub(crate) fn of_words(xs: [u32; 4]) -> [i32; 4]
    ensures { result ≡ twos_numbers xs }
{
    xs.map(u32::cast_signed)
}

// The words of four signed numbers.
pub(crate) fn words_of(xs: [i32; 4]) -> [u32; 4]
    ensures { result ≡ twos_words xs }
{
    xs.map(i32::cast_unsigned)
}
