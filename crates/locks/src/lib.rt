// Locks beside fixed starts: whether a sporadic task may have a resource, that is whether the length it asks for fits into the free ticks before the next start that uses it, and by what margin.
// The call answers any start table, any resources and any request by value; a refusal gives its number, not granted, and margin 0.
#![tactic(auto)]

ghost use Rattle.std.specs.Prelude.{◌≡◌};
ghost use Rattle.locks.specs.Answers.{grant_answer};

mod bits;
mod ceilings;
mod deciding;
mod distances;
mod judging;
mod rules;
mod running;

// A started job: when in each period it starts, how many ticks it runs, and the resources that it uses, resource r as bit r.
#[derive(Clone, Copy)]
pub struct Job {
    pub offset: u32,
    pub length: u32,
    pub uses: u8,
}

// A start table: the control period, the count of jobs, and room for eight, in any order; those past the count are ignored.
#[derive(Clone, Copy)]
pub struct Starts {
    pub period: u32,
    pub count: u8,
    pub jobs: [Job; 8],
}

// A resource: its sporadic users, priority p as bit p - 1, and the priority of its holder, 0 where nobody holds it.
#[derive(Clone, Copy)]
pub struct Resource {
    pub users: u8,
    pub holder: u8,
}

// What a sporadic task of a priority asks for at a time: a resource, for so many ticks.
#[derive(Clone, Copy)]
pub struct Request {
    pub priority: u8,
    pub time: u64,
    pub resource: u8,
    pub length: u32,
}

// What `grant` answers: the refusal, or 0 beside whether the resource is granted and the margin.
#[derive(Clone, Copy)]
pub struct Granting {
    pub refusal: u8,
    pub granted: bool,
    pub margin: i64,
}

// Whether the request is granted, and the free time less its length.
pub fn grant(starts: Starts, resources: [Resource; 8], request: Request) -> Granting
    ensures { result ≡ grant_answer starts resources request }
{
    let refusal = rules::judge(starts, resources, request);
    if refusal != 0 {
        return Granting {
            refusal,
            granted: false,
            margin: 0,
        };
    }
    deciding::decide(starts, resources, request)
}
