// The grant rule for a request that is not refused.
ghost use Rattle.std.specs.Prelude.{◌≡◌, ◌<◌, pos, ◌-ℤ◌};
ghost use Rattle.locks.specs.Rules.{grant_refusal};
ghost use Rattle.locks.specs.Answers.{grant_answer};

use crate::{Granting, Request, Resource, Starts, ceilings, distances, running};

// The free time less the length.
fn margin(free: u64, length: u32) -> i64
    requires { free < 4294967296 }
    ensures { result ≡ pos free -ℤ pos length }
{
    free as i64 - length as i64
}

// Whether the request is granted, and its margin.
pub fn decide(starts: Starts, resources: [Resource; 8], request: Request) -> Granting
    requires { grant_refusal starts resources request ≡ 0 }
    ensures { result ≡ grant_answer starts resources request }
{
    let jobs = starts.jobs;
    let resource = request.resource as usize;
    let is_above = !ceilings::barred(jobs, starts.count, resources, request.priority);
    if !running::some_uses(jobs, starts.count, resource) {
        return Granting {
            refusal: 0,
            granted: is_above,
            margin: 0,
        };
    }
    let free = distances::free_time(starts, resource, request.time);
    Granting {
        refusal: 0,
        granted: is_above & (request.length as u64 <= free),
        margin: margin(free, request.length),
    }
}
