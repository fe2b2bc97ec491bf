// Start tables and resources given as the numbers of C.
ghost use Rattle.std.specs.Prelude.{◌≡◌, ◌<◌};
ghost use Rattle.fidhaqooban.specs.Locking.{given_job, given_starts, given_resource, given_resources};

use crate::given::number_at;
use locks::{Job, Resource, Starts};

// The job at a place.
fn job(numbers: &[u32], uses: &[u8], place: usize) -> Job
    requires { place < 8 }
    ensures { result ≡ given_job numbers.now uses.now place }
{
    Job {
        offset: number_at(numbers, 2 * place, 0),
        length: number_at(numbers, 2 * place + 1, 0),
        uses: number_at(uses, place, 0),
    }
}

// The start table of the numbers.
pub fn starts(period: u32, count: u8, numbers: &[u32], uses: &[u8]) -> Starts
    ensures { result ≡ given_starts period count numbers.now uses.now }
{
    let mut jobs = [job(numbers, uses, 0); 8];
    for place in 1..8 {
        jobs[place] = job(numbers, uses, place);
    }
    Starts {
        period,
        count,
        jobs,
    }
}

// The resource of a number.
fn resource(numbers: &[u8], number: usize) -> Resource
    requires { number < 8 }
    ensures { result ≡ given_resource numbers.now number }
{
    Resource {
        users: number_at(numbers, number, 0),
        holder: number_at(numbers, 8 + number, 0),
    }
}

// The eight resources of the numbers.
pub fn resources(numbers: &[u8]) -> [Resource; 8]
    ensures { result ≡ given_resources numbers.now }
{
    let mut resources = [resource(numbers, 0); 8];
    for number in 1..8 {
        resources[number] = resource(numbers, number);
    }
    resources
}
