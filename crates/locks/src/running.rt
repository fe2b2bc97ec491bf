// When started jobs run, and which resources they use.
ghost use Rattle.std.specs.Prelude.{◌≡◌, ◌+◌, ◌%◌, ◌≤◌, ◌<◌};
ghost use Rattle.locks.specs.Bits.{has_bit};
ghost use Rattle.locks.specs.Jobs.{some_job, within};

use crate::{Job, bits};

// Where in its period a time stands.
pub fn phase(time: u64, period: u32) -> u32
    requires { 0 < period }
    ensures rest { result ≡ time % period }
    ensures below { result < period }
{
    (time % period as u64) as u32
}

// Where in the period a job ends.
pub fn end(job: Job) -> u64
    ensures { result ≡ job.offset + job.length }
{
    job.offset as u64 + job.length as u64
}

// Whether a job runs at a phase of the period.
fn runs(job: Job, phase: u32) -> bool
    ensures { result ≡ within job.offset job.length phase }
{
    (job.offset <= phase) & ((phase as u64) < end(job))
}

// Whether some job runs at a phase of the period.
pub fn some_runs(jobs: [Job; 8], count: u8, phase: u32) -> bool
    requires { count ≤ 8 }
    ensures { result ≡ some_job jobs count (λ job. within job.offset job.length phase) }
{
    (0..count as usize).fold(false, |found, place| found | runs(jobs[place], phase))
}

// Whether some job uses a resource.
pub fn some_uses(jobs: [Job; 8], count: u8, resource: usize) -> bool
    requires few { count ≤ 8 }
    requires known { resource ≤ 7 }
    ensures { result ≡ some_job jobs count (λ job. has_bit job.uses resource) }
{
    (0..count as usize).fold(false, |found, place| {
        found | bits::has_bit(jobs[place].uses, resource)
    })
}
