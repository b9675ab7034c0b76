// One record of a list, by its number. The list is judged anew at each call, so any number over any bytes has its answer.
ghost use Rattle.std.specs.Prelude.{◌≡◌};
ghost use Rattle.list.specs.Lists.{no_record, record_at, place_after};

use crate::head::record_count;
use crate::{Numbered, layout};
use plane::{Config, Tensor};
use record::Reading;

// 39, and zeros besides.
fn no_record() -> Numbered
    ensures { result ≡ no_record }
{
    Numbered {
        number: 0,
        reading: Reading {
            status: 39,
            dim: 0,
            tensor: Tensor::zero(),
            config: Config::zero(),
        },
    }
}

// Record number k with what record::read says of it; 39 at or past the count, and in a refused list.
pub fn record_at(bytes: &[u8], k: usize) -> Numbered
    ensures { result ≡ record_at bytes.now k }
{
    if record_count(bytes) <= k {
        return no_record();
    }
    let start = layout::HEAD + record::LENGTH * k;
    let end = start + record::LENGTH;
    Numbered {
        number: k,
        reading: record::read(&bytes[start..end]),
    }
}

// The number after k; k itself at or past the count, and in a refused list.
pub fn place_after(bytes: &[u8], k: usize) -> usize
    ensures { result ≡ place_after bytes.now k }
{
    if record_count(bytes) <= k {
        return k;
    }
    k + 1
}
