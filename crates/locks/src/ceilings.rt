// Ceilings, and whether a resource that another task holds has one that a priority is not above.
ghost use Rattle.std.specs.Prelude.{◌≡◌, ◌≤◌};
ghost use Rattle.places.specs.Places.{some_below};
ghost use Rattle.locks.specs.Bits.{has_bit};
ghost use Rattle.locks.specs.Jobs.{some_job};
ghost use Rattle.locks.specs.Ceilings.{resource_at, ceiling_of, bars};

use crate::{Job, Resource, bits, running};

// The ceiling of a resource of which it is known whether a started job uses it.
fn ceiling(is_critical: bool, users: u8) -> u8
    ensures { result ≡ ceiling_of is_critical users }
{
    if is_critical {
        return 9;
    }
    bits::highest_user(users)
}

// Whether another task holds the resource and the priority is not above its ceiling.
fn bars(resource: Resource, is_critical: bool, priority: u8) -> bool
    ensures { result ≡ bars resource is_critical priority }
{
    ((resource.holder != 0) & (resource.holder != priority))
        & (priority <= ceiling(is_critical, resource.users))
}

// Whether some resource bars the priority.
pub fn barred(jobs: [Job; 8], count: u8, resources: [Resource; 8], priority: u8) -> bool
    requires { count ≤ 8 }
    ensures { result ≡ some_below (λ number. bars (resource_at resources number) (some_job jobs count (λ job. has_bit job.uses number)) priority) 8 }
{
    (0..8).fold(false, |found, place| {
        let is_critical = running::some_uses(jobs, count, place);
        found | bars(resources[place], is_critical, priority)
    })
}
