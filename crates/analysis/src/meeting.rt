// Whether a choice meets a rule, yes or no: each task is asked about its deadline only, from the lowest up, and the first that misses it decides.
ghost use Rattle.std.specs.Prelude.{◌≡◌, get_or, ◌+◌};
ghost use Rattle.analysis.specs.Common.Entries.{is_late};
ghost use Rattle.analysis.specs.Common.Tasks.{tasks_of};
ghost use Rattle.analysis.specs.Common.Lent.{chosen_in};
ghost use Rattle.analysis.specs.ByRule.{time_by, meets, judged_refusal};

use crate::Rule;
use crate::common::by_rank;
use crate::common::tasks::{Chosen, Task};
use sheet::Table;

impl Task<'_> {
    // Whether it has no time within its deadline by a rule.
    fn misses(&self, rule: Rule) -> bool
        ensures { result ≡ is_late (get_or self.now.among.tasks.columns.now (24 + self.now.rank) 0) (time_by rule (chosen_in self.now.among) self.now.rank) }
    {
        match rule {
            Rule::Published => self.is_late(),
            Rule::Assured => self.is_unassured(),
        }
    }
}

impl Chosen<'_> {
    // Whether the tasks meet a rule: what runs above a task delays it, so that a low one misses the sooner.
    pub fn meets(&self, rule: Rule) -> bool
        ensures { result ≡ meets rule (chosen_in self.now) }
    {
        for rank in (0..self.tasks.frame.count as usize).rev() {
            let task = Task { among: *self, rank };
            if task.misses(rule) {
                return false;
            }
        }
        true
    }
}

// Whether a choice that is not refused meets a rule.
pub fn meets(table: Table, choice: [u8; 8], rule: Rule) -> bool
    requires { judged_refusal rule table choice ≡ 0 }
    ensures { result ≡ meets rule (tasks_of table table.interval choice) }
{
    let mut columns = [0u16; 32];
    let mut faults = [0u8; 8];
    let among = by_rank::chosen(table, choice, &mut columns, &mut faults);
    among.meets(rule)
}
