// What a request is refused for: 20, 21, 25, 22, in this order.
ghost use Rattle.std.specs.Prelude.{◌≡◌, ◌≤◌, false};
ghost use Rattle.locks.specs.Jobs.{busy};
ghost use Rattle.locks.specs.Rules.{wrong_starts, wrong_request, is_held, grant_refusal};

use crate::{Request, Resource, Starts, bits, judging, running};

// Whether a started job of a good table runs at a time.
fn busy(starts: Starts, time: u64) -> bool
    requires { wrong_starts starts ≡ false }
    ensures { result ≡ busy starts time }
{
    let jobs = starts.jobs;
    running::some_runs(jobs, starts.count, running::phase(time, starts.period))
}

// Whether the request names no resource, has no length, or comes from no user of the resource.
fn wrong_request(resources: [Resource; 8], request: Request) -> bool
    ensures { result ≡ wrong_request resources request }
{
    let at = request.resource as usize;
    if 7 < at {
        return true;
    }
    let resource = resources[at];
    (request.length == 0) | !bits::is_user(resource.users, request.priority)
}

// Whether anyone holds the resource.
fn is_held(resources: [Resource; 8], resource: u8) -> bool
    requires { resource ≤ 7 }
    ensures { result ≡ is_held resources resource }
{
    let at = resource as usize;
    let asked = resources[at];
    asked.holder != 0
}

// The first rule that a request breaks, or 0.
pub fn judge(starts: Starts, resources: [Resource; 8], request: Request) -> u8
    ensures { result ≡ grant_refusal starts resources request }
{
    if judging::wrong_starts(starts) {
        return 20;
    }
    if judging::some_wrong_holder(resources) {
        return 20;
    }
    if busy(starts, request.time) {
        return 21;
    }
    if wrong_request(resources, request) {
        return 25;
    }
    if is_held(resources, request.resource) {
        return 22;
    }
    0
}
