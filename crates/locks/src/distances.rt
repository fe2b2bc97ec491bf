// The free time before the next start that uses a resource, from the distances of the jobs' next starts.
ghost use Rattle.std.specs.Prelude.{◌≡◌, true, false, cond, ◌≤◌, ◌<◌, min, ltb};
ghost use Rattle.locks.specs.Jobs.{busy, is_critical};
ghost use Rattle.locks.specs.Free.{free_time};
ghost use Rattle.locks.specs.Rules.{wrong_starts};
ghost use Rattle.locks.specs.Distances.{distance, nearest, between};

use crate::{Job, Starts, bits, running};

// The ticks from a phase of the period until a job starts, in this period or the next.
fn distance(offset: u32, phase: u32, period: u32) -> u64
    requires { phase < period }
    ensures { result ≡ distance period phase offset }
{
    if phase <= offset {
        return (offset - phase) as u64;
    }
    (period - phase) as u64 + offset as u64
}

// The smaller of two distances, the first only where it counts.
fn nearer(counts: bool, distance: u64, near: u64) -> u64
    ensures { result ≡ cond counts (min distance near) near }
{
    if counts {
        if distance < near {
            return distance;
        }
    }
    near
}

// The distance of the next start that uses the resource; the period where there is none.
fn nearest(jobs: [Job; 8], count: u8, resource: usize, phase: u32, period: u32) -> u64
    requires few { count ≤ 8 }
    requires known { resource ≤ 7 }
    requires inside { phase < period }
    ensures { result ≡ nearest period phase resource jobs count }
{
    let mut near = period as u64;
    for place in 0..count as usize {
        let job = jobs[place];
        near = nearer(
            bits::has_bit(job.uses, resource),
            distance(job.offset, phase, period),
            near,
        );
    }
    near
}

// A length where the distance is below the limit, else 0.
fn length_before(distance: u64, limit: u64, length: u32) -> u64
    ensures counted { result ≡ cond (ltb distance limit) length 0 }
    ensures small { result < 4294967296 }
{
    if distance < limit {
        return length as u64;
    }
    0
}

// The lengths together of the jobs whose next start is nearer than the limit.
fn between(jobs: [Job; 8], count: u8, limit: u64, phase: u32, period: u32) -> u64
    requires few { count ≤ 8 }
    requires inside { phase < period }
    ensures { result ≡ between period phase limit jobs count }
{
    let mut sum: u64 = 0;
    for place in 0..count as usize {
        let job = jobs[place];
        sum += length_before(distance(job.offset, phase, period), limit, job.length);
    }
    sum
}

// The free time before the next start that uses the resource.
pub fn free_time(starts: Starts, resource: usize, time: u64) -> u64
    requires good { wrong_starts starts ≡ false }
    requires idle { busy starts time ≡ false }
    requires critical { is_critical starts resource ≡ true }
    requires known { resource ≤ 7 }
    ensures exact { result ≡ free_time starts resource time }
    ensures small { result < 4294967296 }
{
    let jobs = starts.jobs;
    let period = starts.period;
    let phase = running::phase(time, period);
    let near = nearest(jobs, starts.count, resource, phase, period);
    near - between(jobs, starts.count, near, phase, period)
}
