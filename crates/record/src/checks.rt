// What is asked of the fields of a record: 1, 2 and 28.
ghost use Rattle.std.specs.Prelude.{◌≡◌, not, ◌≤◌, ◌<◌, eqb};
ghost use Rattle.plane.specs.Arrays.{at, some};
ghost use Rattle.plane.specs.Planes.{Sized};
ghost use Rattle.faults.specs.Faults.{lowest, outcome};
ghost use Rattle.record.specs.Layout.{group_count, group};
ghost use Rattle.record.specs.Records.{stray, bad_fill, fields_fault};
ghost use Rattle.record.specs.Private.{fault_in};

use crate::layout;
use plane::{Config, Fault, Tensor, element_size, rank_is_bad};

// Whether some group has an entry d that is not 0. The groups have three types of number, so an array of them would need conversions.
fn has_entry(t: &Tensor, c: &Config, d: usize) -> bool
    requires { d < 4 }
    ensures { result ≡ some group_count (λ k. not (eqb (at (group t.now c.now k) d) 0)) }
{
    (t.shape[d] != 0)
        | (t.stride[d] != 0)
        | (c.offset[d] != 0)
        | (c.size[d] != 0)
        | (c.step[d] != 0)
        | (c.dst_offset[d] != 0)
        | (c.dst_stride[d] != 0)
        | (c.perm[d] != 0)
        | (c.pre[d] != 0)
        | (c.post[d] != 0)
}

// 28: the lowest dimension at or past the rank that has an entry.
fn check_stray(t: &Tensor, c: &Config) -> Result<(), Fault>
    requires { t.now.rank ≤ 4 }
    ensures { result ≡ outcome (lowest 28 4 (stray t.now c.now)) tt }
{
    let n = t.rank;
    match (n..4).find(|&d| has_entry(t, c, d as usize)) {
        Some(dim) => Err(Fault { status: 28, dim }),
        None => Ok(()),
    }
}

// 28 of version 2: a fill of 0, or one with a byte past the element size that is not 0.
fn fill_is_bad(size: u8, fill: u32) -> bool
    requires { Sized size }
    ensures { result ≡ bad_fill size fill }
{
    match size {
        1 => (fill == 0) | (0x100 <= fill),
        2 => (fill == 0) | (0x10000 <= fill),
        3 => (fill == 0) | (0x1000000 <= fill),
        _ => fill == 0,
    }
}

// What a record of that version refuses of its fields: 1, for version 2 also 2, 28, and for version 2 also 28 at dimension 0. Any
// version but 2 is judged as 1 is, which asks nothing of the fill.
pub(crate) fn check_fields(version: u16, tensor: &Tensor, config: &Config) -> Result<(), Fault>
    ensures { result ≡ outcome (fields_fault version tensor.now config.now) tt }
{
    if rank_is_bad(tensor.rank) {
        return Err(Fault { status: 1, dim: 0 });
    }
    let is_plain = version != layout::VERSION_2;
    if is_plain {
        return check_stray(tensor, config);
    }
    if element_size(tensor.element_size) == 0 {
        return Err(Fault { status: 2, dim: 0 });
    }
    check_stray(tensor, config)?;
    if fill_is_bad(tensor.element_size, config.fill) {
        return Err(Fault { status: 28, dim: 0 });
    }
    Ok(())
}

// The fault that a check tells, with number 0 where it passed: `fields_fault` and `write` promise a Fault in either case.
pub(crate) fn fault_of(checked: Result<(), Fault>) -> Fault
    ensures { result ≡ fault_in checked }
{
    checked.err().unwrap_or(Fault { status: 0, dim: 0 })
}

// What a record of that version refuses of its fields.
pub fn fields_fault(version: u16, tensor: Tensor, config: Config) -> Fault
    ensures { result ≡ fields_fault version tensor config }
{
    fault_of(check_fields(version, &tensor, &config))
}
