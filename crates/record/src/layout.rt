// The bytes of a record: mark, version, rank and element size, ten groups of four numbers, and in version 2 the fill. The numbers of
// the first seven groups have four bytes each, those of the last three one, and the fill has four. The lowest byte comes first. Each
// field starts where the one before it ends.

// R, M, V
pub(crate) const MARK: [u8; 3] = [82, 77, 86];

// Without a fill, and with one.
pub const VERSION_1: u16 = 1;

pub const VERSION_2: u16 = 2;

// The bytes of a group of four-byte numbers, and of a group of single bytes.
const WORDS: usize = 16;

const SINGLES: usize = 4;

// Where the version, in two bytes, and the rank and the element size stand, after the mark.
pub(crate) const VERSION_AT: usize = 3;

pub(crate) const VERSION_END: usize = VERSION_AT + 2;

pub(crate) const RANK: usize = VERSION_END;

pub(crate) const ELEMENT_SIZE: usize = RANK + 1;

// Where each group starts.
pub(crate) const SHAPE: usize = ELEMENT_SIZE + 1;

pub(crate) const STRIDE: usize = SHAPE + WORDS;

pub(crate) const OFFSET: usize = STRIDE + WORDS;

pub(crate) const SIZE: usize = OFFSET + WORDS;

pub(crate) const STEP: usize = SIZE + WORDS;

pub(crate) const DST_OFFSET: usize = STEP + WORDS;

pub(crate) const DST_STRIDE: usize = DST_OFFSET + WORDS;

pub(crate) const PERM: usize = DST_STRIDE + WORDS;

pub(crate) const PRE: usize = PERM + SINGLES;

pub(crate) const POST: usize = PRE + SINGLES;

// Where the fill stands, in four bytes.
pub(crate) const FILL: usize = POST + SINGLES;

// The bytes of a record of version 1: 131.
pub const LENGTH: usize = FILL;

// The bytes of a record of version 2: 135.
pub const FILLED_LENGTH: usize = FILL + 4;
