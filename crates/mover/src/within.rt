// A move between two parts of one memory, a stretch at a time.
ghost use Rattle.std.specs.Prelude.{◌≡◌, ◌<◌, length};
ghost use Rattle.faults.specs.Faults.{fault, outcome};
ghost use Rattle.plane.specs.Moves.{accepted};
ghost use Rattle.mover.specs.Within.{leaves, off_boundary, meets, job_fault, further, verdict_of, advance_of, advance_memory};

use crate::plan::{plan_of, total};
use crate::stretch::advance_within;
use crate::verdicts::judged;
use crate::{Advanced, Job, Part, Verdict};
use plane::{Answer, Fault};

// 20: whether a part leaves a memory of len bytes. Two tests one after the other, and no `||`: the second alone is what the function
// returns, where a wrong answer (must-fail/job_refuses_all) may turn it without changing the steps.
fn leaves(len: usize, p: Part) -> bool
    ensures { result ≡ leaves len p }
{
    let n = len as u64;
    if n < p.start {
        return true;
    }
    n - p.start < p.length
}

// 34: whether a part does not start at a multiple of the element size. Elements of three bytes may start anywhere.
fn is_off_boundary(size: u8, p: Part) -> bool
    requires { 0 < size }
    ensures { result ≡ off_boundary size p }
{
    (size != 3) & (p.start % size as u64 != 0)
}

// Whether two parts share a byte: the one that starts later starts within the other, and is not empty.
pub fn meets(p: Part, q: Part) -> bool
    ensures { result ≡ meets p q }
{
    if p.start <= q.start {
        return (q.start - p.start < p.length) & (0 < q.length);
    }
    (p.start - q.start < q.length) & (0 < p.length)
}

// A refusal that names no dimension.
fn overall(status: u8) -> Fault
    ensures { result ≡ fault status 0 }
{
    Fault { status, dim: 0 }
}

// What a job answers over a memory of len bytes: 20, 1 to 13, 34, 21, else as its move does.
fn answer(len: usize, job: Job) -> Result<Answer, Fault>
    ensures { result ≡ outcome (job_fault len job) (accepted job.tensor job.config) }
{
    if leaves(len, job.source) {
        return Err(overall(20));
    }
    if leaves(len, job.destination) {
        return Err(overall(20));
    }
    let a = judged(
        job.tensor,
        job.config,
        job.source.length as usize,
        job.destination.length as usize,
    )?;
    if is_off_boundary(job.tensor.element_size, job.source) {
        return Err(overall(34));
    }
    if is_off_boundary(job.tensor.element_size, job.destination) {
        return Err(overall(34));
    }
    if meets(job.source, job.destination) {
        return Err(overall(21));
    }
    Ok(a)
}

// What a job comes to over a memory of len bytes. It moves nothing.
pub fn judge_job(len: usize, job: Job) -> Verdict
    ensures { result ≡ verdict_of len job }
{
    match answer(len, job) {
        Ok(a) => Verdict {
            status: 0,
            dim: 0,
            total: total(a) as u64,
        },
        Err(f) => Verdict {
            status: f.status,
            dim: f.dim,
            total: 0,
        },
    }
}

// Moves the elements of a job from number `from` on, budget of them, or what is left, and tells how many.
fn moved(mem: &mut [u8], job: Job, from: u64, budget: u64) -> Result<u64, Fault>
    ensures counted { result ≡ outcome (job_fault (length mem.old) job) (further job from budget) }
    ensures written { mem.new ≡ advance_memory job from budget mem.old }
{
    let a = answer(mem.len(), job)?;
    if total(a) as u64 <= from {
        return Ok(0);
    }
    let count = advance_within(
        mem,
        job.source,
        job.destination,
        plan_of(job.tensor, job.config, a),
        from as usize,
        budget as usize,
    );
    Ok(count as u64)
}

// Moves the elements of a job from number `from` on: budget of them, or what is left.
pub fn advance(mem: &mut [u8], job: Job, from: u64, budget: u64) -> Advanced
    ensures answered { result ≡ advance_of job from budget mem.old }
    ensures written { mem.new ≡ advance_memory job from budget mem.old }
{
    match moved(mem, job, from, budget) {
        Ok(count) => Advanced {
            status: 0,
            dim: 0,
            count,
        },
        Err(f) => Advanced {
            status: f.status,
            dim: f.dim,
            count: 0,
        },
    }
}
