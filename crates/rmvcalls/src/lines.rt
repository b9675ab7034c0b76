// Lines: a call's digits become bytes as they come.
use crate::calls::ROOM;
use crate::no_call::NoCall;

// The longest call: a move with source and destination.
pub(crate) const LONGEST: usize = 2 * ROOM + 4096;

// A line so far: how many digits it has, or why it is no call; and the bytes that the digits make, in room of a fixed size.
#[derive(Drop)]
pub(crate) struct Line {
    digits: Result<usize, NoCall>,
    bytes: [u8; LONGEST],
}

impl Line {
    pub(crate) fn new() -> Line {
        Line {
            digits: Ok(0),
            bytes: [0; LONGEST],
        }
    }

    pub(crate) fn clear(&mut self) {
        self.digits = Ok(0);
    }

    // Whether no character has come.
    pub(crate) fn is_empty(&self) -> bool {
        matches!(self.digits, Ok(0))
    }

    // Takes in one more character, unless the line is no call already.
    pub(crate) fn push(&mut self, ch: u8) {
        if let Ok(digits) = self.digits {
            self.digits = self.with_digit(digits, ch);
        }
    }

    // The second digit of a byte pushes the first one up.
    fn with_digit(&mut self, digits: usize, ch: u8) -> Result<usize, NoCall> {
        let x = char::from(ch).to_digit(16).ok_or(NoCall::Digits)?;
        let byte = self.bytes.get_mut(digits / 2).ok_or(NoCall::TooLong)?;
        *byte = (*byte << 4) | x as u8;
        Ok(digits + 1)
    }

    // The bytes of the whole line; with_digit lets no more digits in than they have place for.
    pub(crate) fn bytes(&self) -> Result<&[u8], NoCall> {
        let digits = self.digits?;
        if digits % 2 != 0 {
            return Err(NoCall::Digits);
        }
        self.bytes.get(..digits / 2).ok_or(NoCall::TooLong)
    }
}
