// What a jump starts from, and what it has taken so far.
ghost use Rattle.std.specs.Prelude.{◌<◌};

use crate::common::tasks::Ordered;

// A trial that is too short, over the tasks whose terms it is asked, and what it is asked less because it is already paid.
#[derive(Clone, Copy)]
pub struct Jump<'a> {
    pub tasks: Ordered<'a>,
    pub paid: u64,
    pub trial: u64,
    ghost short: { trial < 65536 },
}

// What a jump has taken: the sum of the rates, what the trial is asked besides, the longest length found, and the backup of the faults until they are taken.
#[derive(Clone, Copy)]
pub struct Taken {
    pub rate: u64,
    pub rest: u64,
    pub found: u64,
    pub backup: u16,
    ghost small: { rest < 137438953472 },
}
