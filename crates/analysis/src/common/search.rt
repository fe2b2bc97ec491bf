// A demand for one of the tasks in order, as the searches are lent it.
ghost use Rattle.std.specs.Prelude.{[]};
ghost use Rattle.analysis.specs.Common.ByRank.{ranked, Sought};

use crate::common::tasks::Ordered;

// What a length of a time is asked: a base, the runs of the tasks before the rank and of those after it and before the last, a backup for each fault, less what is already paid.
#[derive(Clone, Copy)]
pub struct Search<'a> {
    pub tasks: Ordered<'a>,
    pub base: u64,
    pub rank: usize,
    pub until: usize,
    pub backup: u16,
    pub paid: u16,
    ghost sought: { Sought (ranked tasks.columns.now tasks.frame []) (record { base = base; rank = rank; until = until; backup = backup; paid = paid }) },
}
