// What is asked of a table by a rule: the entry of a record, and every record's entry beside the verdict.
// Times are computed among tasks by rank and answered in record order.
ghost use Rattle.std.specs.Prelude.{◌≡◌, ℕ, ◌<◌, get_or};
ghost use Rattle.places.specs.Answered.{answered};
ghost use Rattle.sheet.specs.Rules.{table_refusal};
ghost use Rattle.analysis.specs.Told.{times_told};
ghost use Rattle.analysis.specs.Common.Allowed.{Within};
ghost use Rattle.analysis.specs.Common.Tasks.{tasks_of};
ghost use Rattle.analysis.specs.Common.Lent.{chosen_in};
ghost use Rattle.analysis.specs.ByRule.{time_by, entry_by, choice_assessment_by, ranked_assessment};

use crate::common::tasks::{Chosen, Task};
use crate::common::{by_rank, climb, entries};
use crate::{Assessment, Entry, Equation, Rule, judge_choice_by};
use places::refusal::Refusal;
use sheet::Table;

impl Task<'_> {
    // Its time by a rule, or 0.
    fn time_by(&self, rule: Rule) -> u16
        ensures { result ≡ time_by rule (chosen_in self.now.among) self.now.rank }
    {
        let limit = climb::LONGEST;
        match rule {
            Rule::Published => self.response(limit),
            Rule::Assured => self.time(limit, Equation::Assurance) as u16,
        }
    }

    // Its entry by a rule.
    pub fn entry(&self, rule: Rule) -> Entry
        ensures { result ≡ entry_by rule (chosen_in self.now.among) self.now.rank }
    {
        let time = self.time_by(rule);
        entries::entry(self.among.tasks.columns[24 + self.rank], time)
    }
}

// The entry by a rule of the record at a place of a good table, under a choice that it has.
pub fn entry_of(table: Table, choice: [u8; 8], place: usize, rule: Rule) -> Entry
    requires good { table_refusal table ≡ 0 }
    requires within { Within table choice }
    requires here { place < table.count }
    ensures { result ≡ entry_by rule (tasks_of table table.interval choice) place }
{
    let mut columns = [0u16; 32];
    let mut faults = [0u8; 8];
    let task = by_rank::task_of(table, choice, place, &mut columns, &mut faults);
    task.entry(rule)
}

impl Chosen<'_> {
    // The entries by a rule of the tasks, each at the place whose rank is lent beside them, and whether none of them says late.
    pub fn assessed(&self, ranks: &[u8; 8], rule: Rule) -> Assessment
        requires { (place : ℕ) → place < self.now.tasks.frame.count → get_or ranks.now place 0 < self.now.tasks.frame.count }
        ensures { result ≡ times_told (ranked_assessment rule (chosen_in self.now) ranks.now) }
    {
        let count = self.tasks.frame.count as usize;
        let mut entries = [entries::no_entry(); 8];
        let mut some_late = false;
        for place in 0..count {
            let task = Task {
                among: *self,
                rank: ranks[place] as usize,
            };
            let filled = task.entry(rule);
            let outcome = filled.outcome;
            entries[place] = filled;
            some_late = some_late | entries::says_late(outcome);
        }
        Assessment {
            entries,
            passes: !some_late,
        }
    }
}

// The entries by a rule of a table under a choice, each at its record's place, and whether none of them says late.
pub fn assessment(table: Table, choice: [u8; 8], rule: Rule) -> Result<Assessment, Refusal>
    ensures { result ≡ answered (choice_assessment_by rule table choice).refusal (times_told (choice_assessment_by rule table choice)) }
{
    judge_choice_by(table, choice, rule)?;
    let mut columns = [0u16; 32];
    let mut faults = [0u8; 8];
    let among = by_rank::chosen(table, choice, &mut columns, &mut faults);
    let mut ranks = [0u8; 8];
    by_rank::put_ranks(table, &mut ranks);
    Ok(among.assessed(&ranks, rule))
}
