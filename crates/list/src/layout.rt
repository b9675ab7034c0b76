// The bytes of a list: mark, version, count, and then as many records. The lowest byte of a number comes first.

// R, M, L
pub(crate) const MARK: [u8; 3] = [82, 77, 76];

// The version, in two bytes after the mark.
pub(crate) const VERSION: u16 = 1;

pub(crate) const VERSION_AT: usize = 3;

// Where the count stands, in two bytes.
pub(crate) const COUNT_AT: usize = VERSION_AT + 2;

// The bytes before the first record: 7.
pub const HEAD: usize = COUNT_AT + 2;

// The most records that a count can tell: 65,535.
pub(crate) const MOST: u16 = 65535;
