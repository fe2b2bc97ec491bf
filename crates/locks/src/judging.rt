// The rules of a start table and of the holders: refusal 20.
ghost use Rattle.std.specs.Prelude.{◌≡◌, ◌||◌, ◌+◌, ◌≤◌, ◌<◌};
ghost use Rattle.places.specs.Places.{some_below};
ghost use Rattle.locks.specs.Jobs.{job_at};
ghost use Rattle.locks.specs.Rules.{is_wrong, overlap, overlaps_earlier, wrong_starts, wrong_holder, some_wrong_holder};

use crate::{Job, Resource, Starts, bits, running};

// Whether a job has no length or ends past the period.
fn is_wrong(job: Job, period: u32) -> bool
    ensures { result ≡ is_wrong period job }
{
    (job.length == 0) | ((period as u64) < running::end(job))
}

// Whether two jobs overlap.
fn overlap(job: Job, other: Job) -> bool
    ensures { result ≡ overlap job other }
{
    ((job.offset as u64) < running::end(other)) & ((other.offset as u64) < running::end(job))
}

// Whether the job at a place overlaps an earlier one.
fn overlaps_earlier(jobs: [Job; 8], place: usize) -> bool
    requires { place < 8 }
    ensures { result ≡ overlaps_earlier jobs place }
{
    (0..place).fold(
        false,
        |found, earlier| found | overlap(jobs[earlier], jobs[place]),
    )
}

// Whether some job below the count is wrong by itself or overlaps an earlier one.
fn some_wrong(jobs: [Job; 8], count: u8, period: u32) -> bool
    requires { count ≤ 8 }
    ensures { result ≡ some_below (λ place. is_wrong period (job_at jobs place) || overlaps_earlier jobs place) count }
{
    (0..count as usize).fold(false, |found, place| {
        found | (is_wrong(jobs[place], period) | overlaps_earlier(jobs, place))
    })
}

// Whether a start table breaks its rules.
pub fn wrong_starts(starts: Starts) -> bool
    ensures { result ≡ wrong_starts starts }
{
    if 8 < starts.count {
        return true;
    }
    let jobs = starts.jobs;
    (starts.period == 0) | some_wrong(jobs, starts.count, starts.period)
}

// Whether a resource's holder is no user of it.
fn wrong_holder(resource: Resource) -> bool
    ensures { result ≡ wrong_holder resource }
{
    (resource.holder != 0) & !bits::is_user(resource.users, resource.holder)
}

// Whether some resource's holder is no user of it.
pub fn some_wrong_holder(resources: [Resource; 8]) -> bool
    ensures { result ≡ some_wrong_holder resources }
{
    resources.iter().any(|resource| wrong_holder(*resource))
}
