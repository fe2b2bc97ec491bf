// What the searches read, lent with the facts that they rely on: tasks in columns by rank, a choice of fault priorities beside them, and one task among them.
ghost use Rattle.std.specs.Prelude.{[], ◌+◌, ◌<◌, ◌≤◌};
ghost use Rattle.analysis.specs.Common.ByRank.{ranked, InOrder, ChosenIn};

use crate::common::by_rank::Frame;

// Good tasks from the highest priority to the lowest: eight costs, then eight periods, eight backups and eight deadlines.
#[derive(Clone, Copy)]
pub struct Ordered<'a> {
    pub columns: &'a [u16; 32],
    pub frame: Frame,
    ghost order: { InOrder (ranked columns.now frame []) },
}

// They and a fault priority for each of them.
#[derive(Clone, Copy)]
pub struct Chosen<'a> {
    pub tasks: Ordered<'a>,
    pub faults: &'a [u8; 8],
    ghost chosen: { ChosenIn (ranked tasks.columns.now tasks.frame faults.now) },
}

// One of them, at its rank.
#[derive(Clone, Copy)]
pub struct Task<'a> {
    pub among: Chosen<'a>,
    pub rank: usize,
    ghost below: { rank < among.tasks.frame.count },
}

// One of the tasks under a fault priority of its own, whatever those of the others.
#[derive(Clone, Copy)]
pub struct Bearer<'a> {
    pub tasks: Ordered<'a>,
    pub rank: usize,
    pub fault: u8,
    ghost below: { rank < tasks.frame.count },
    ghost fits: { fault + rank ≤ tasks.frame.count },
}
