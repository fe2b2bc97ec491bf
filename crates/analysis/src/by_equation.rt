// What is asked of a table by one of the equations: the search that it stands for, and the time of a task and of a record.
ghost use Rattle.std.specs.Prelude.{◌≡◌, ℕ, ◌<◌, not, eqb};
ghost use Rattle.sheet.specs.Rules.{table_refusal};
ghost use Rattle.analysis.specs.Told.{some_of};
ghost use Rattle.analysis.specs.Common.Allowed.{Within};
ghost use Rattle.analysis.specs.Common.Search.{least_within};
ghost use Rattle.analysis.specs.Common.Tasks.{tasks_of};
ghost use Rattle.analysis.specs.Common.Lent.{chosen_in, asked_in};
ghost use Rattle.analysis.specs.ByEquation.{rule_of, asked_by, time_of};

use crate::common::search::Search;
use crate::common::tasks::{Bearer, Task};
use crate::common::{by_rank, climb};
use crate::{Equation, Rule};
use sheet::Table;

// The rule that an equation belongs to.
pub fn rule_of(equation: Equation) -> Rule
    ensures { result ≡ rule_of equation }
{
    match equation {
        Equation::Elsewhere => Rule::Published,
        Equation::Itself => Rule::Published,
        Equation::Assurance => Rule::Assured,
    }
}

impl<'a> Task<'a> {
    // The search for its time by an equation, with its own fault priority and the largest backup that the equation reads.
    fn search(&self, equation: Equation) -> Search<'a>
        ensures { (limit : ℕ) → least_within (asked_in result) 1 limit ≡ least_within (asked_by equation (chosen_in self.now.among) self.now.rank) 1 limit }
    {
        let bearer = Bearer {
            tasks: self.among.tasks,
            rank: self.rank,
            fault: self.among.faults[self.rank],
        };
        match equation {
            Equation::Elsewhere => bearer.elsewhere(self.backup_elsewhere()),
            Equation::Itself => bearer.itself(self.backup_from_fault()),
            Equation::Assurance => bearer.assurance(self.backup_ahead()),
        }
    }

    // Its time by an equation within a limit, or 0.
    pub fn time(&self, limit: u64, equation: Equation) -> u64
        requires { limit < 65536 }
        ensures same { result ≡ least_within (asked_by equation (chosen_in self.now.among) self.now.rank) 1 limit }
        ensures small { result < 65536 }
    {
        self.search(equation).least(limit)
    }

    // Whether it has one. Each caller asks by one equation, and its code is that equation's alone.
    #[inline(always)]
    pub fn has_time(&self, limit: u64, equation: Equation) -> bool
        requires { limit < 65536 }
        ensures { result ≡ not (eqb (least_within (asked_by equation (chosen_in self.now.among) self.now.rank) 1 limit) 0) }
    {
        self.search(equation).reaches(limit)
    }

    // Its time by an equation, however long, or 0.
    fn time_of(&self, equation: Equation) -> u16
        ensures { result ≡ time_of equation (chosen_in self.now.among) self.now.rank }
    {
        self.time(climb::LONGEST, equation) as u16
    }
}

// The time by an equation of the record at a place of a good table, under a choice that it has, where it has one.
pub fn time_under(table: Table, choice: [u8; 8], place: usize, equation: Equation) -> Option<u16>
    requires good { table_refusal table ≡ 0 }
    requires within { Within table choice }
    requires here { place < table.count }
    ensures { result ≡ some_of (time_of equation (tasks_of table table.interval choice) place) }
{
    let mut columns = [0u16; 32];
    let mut faults = [0u8; 8];
    let task = by_rank::task_of(table, choice, place, &mut columns, &mut faults);
    let time = task.time_of(equation);
    if time == 0 { None } else { Some(time) }
}
