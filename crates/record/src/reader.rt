// A record read, each field at its place, as layout.rt and the table in specs/Layout have them.
ghost use Rattle.std.specs.Prelude.{◌≡◌, false, ◌≤◌, length};
ghost use Rattle.record.specs.Layout.{record_length, fill_in};
ghost use Rattle.faults.specs.Faults.{outcome};
ghost use Rattle.record.specs.Records.{bad_length, tensor_in, config_in, read_fault, read_of};

use crate::checks::check_fields;
use crate::numbers::{of_words, part, words};
use crate::versions::version_by_length;
use crate::{Reading, layout};
use plane::{Config, Fault, Tensor};

// The tensor record, unjudged.
fn tensor_in(bytes: &[u8]) -> Tensor
    requires { record_length ≤ length bytes.now }
    ensures { result ≡ tensor_in bytes.now }
{
    Tensor {
        rank: bytes[layout::RANK],
        element_size: bytes[layout::ELEMENT_SIZE],
        shape: words(bytes, layout::SHAPE),
        stride: of_words(words(bytes, layout::STRIDE)),
    }
}

// The fill: 0 in version 1, which has none.
fn fill_in(bytes: &[u8]) -> u32
    requires { bad_length (length bytes.now) ≡ false }
    ensures { result ≡ fill_in bytes.now }
{
    if bytes.len() == layout::LENGTH {
        return 0;
    }
    u32::from_le_bytes(part(bytes, layout::FILL))
}

// The configuration, unjudged.
fn config_in(bytes: &[u8]) -> Config
    requires bytes_value { bad_length (length bytes.now) ≡ false }
    requires record_length_in_bounds { record_length ≤ length bytes.now }
    ensures { result ≡ config_in bytes.now }
{
    Config {
        offset: words(bytes, layout::OFFSET),
        size: words(bytes, layout::SIZE),
        step: words(bytes, layout::STEP),
        dst_offset: words(bytes, layout::DST_OFFSET),
        dst_stride: words(bytes, layout::DST_STRIDE),
        perm: part(bytes, layout::PERM),
        pre: part(bytes, layout::PRE),
        post: part(bytes, layout::POST),
        fill: fill_in(bytes),
    }
}

// The fields that any bytes hold, or 25 to 27, 1, 2 or 28. In version 1 the element size is not looked at.
fn fields_in(bytes: &[u8]) -> Result<(Tensor, Config), Fault>
    ensures { result ≡ outcome (read_fault bytes.now) (tensor_in bytes.now, config_in bytes.now) }
{
    if (bytes.len() != layout::LENGTH) & (bytes.len() != layout::FILLED_LENGTH) {
        return Err(Fault { status: 25, dim: 0 });
    }
    if !bytes.starts_with(&layout::MARK) {
        return Err(Fault { status: 26, dim: 0 });
    }
    let version = version_by_length(bytes.len());
    if u16::from_le_bytes(part(bytes, layout::VERSION_AT)) != version {
        return Err(Fault { status: 27, dim: 0 });
    }
    let tensor = tensor_in(bytes);
    let config = config_in(bytes);
    check_fields(version, &tensor, &config)?;
    Ok((tensor, config))
}

// The fields that any bytes hold, or a refusal and zeros besides.
pub fn read(bytes: &[u8]) -> Reading
    ensures { result ≡ read_of bytes.now }
{
    match fields_in(bytes) {
        Ok((tensor, config)) => Reading {
            status: 0,
            dim: 0,
            tensor,
            config,
        },
        Err(fault) => Reading {
            status: fault.status,
            dim: fault.dim,
            tensor: Tensor::zero(),
            config: Config::zero(),
        },
    }
}
