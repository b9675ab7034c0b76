// The coordinate that the program is given as its arguments.
use std::array;
use std::env::{Env, FillError};

const DIGITS: usize = 10; // of the longest number

// One to four numbers, with 0 behind them, as a pixel's coordinate is asked for.
#[derive(Clone, Copy)]
pub(crate) struct Coordinate {
    pub(crate) count: usize,
    pub(crate) at: [u32; 4],
}

// Arguments that are none: one is no number, or there are none or more than four.
#[derive(Clone, Copy)]
pub(crate) struct NoCoordinate;

// The number of 32 bits that these decimal digits are.
fn number(text: &[u8]) -> Option<u32> {
    let text = str::from_utf8(text).ok()?;
    if text.starts_with('+') {
        return None;
    }
    text.parse().ok()
}

// Argument i, if there is one. One that is longer than the longest number is no number.
fn argument(env: &impl Env, i: usize) -> Result<Option<u32>, NoCoordinate> {
    let mut text = [0u8; DIGITS];
    match env.arg(i, &mut text) {
        Ok(n) => number(&text[..n]).map(Some).ok_or(NoCoordinate),
        Err(FillError::NotPresent) => Ok(None),
        Err(FillError::TooLong) => Err(NoCoordinate),
    }
}

// The arguments after the program's own name.
pub(crate) fn given(env: &impl Env) -> Result<Coordinate, NoCoordinate> {
    let numbers: [Option<u32>; 4] = array::try_from_fn(|i| argument(env, i + 1))?;
    let count = numbers.iter().flatten().count();
    if count == 0 || argument(env, 5)?.is_some() {
        return Err(NoCoordinate);
    }
    Ok(Coordinate {
        count,
        at: numbers.map(Option::unwrap_or_default),
    })
}
