// The least interval at which a table meets a rule.
ghost use Rattle.std.specs.Prelude.{◌≡◌, ◌≤◌};
ghost use Rattle.sheet.specs.Rules.{table_refusal};
ghost use Rattle.analysis.specs.Told.{some_of};
ghost use Rattle.analysis.specs.Common.Tasks.{own_choice};
ghost use Rattle.analysis.specs.Common.ByRank.{ranked, frame_of, at_interval, ColumnsOf, FaultsOf};
ghost use Rattle.analysis.specs.Common.Lent.{chosen_in};
ghost use Rattle.analysis.specs.ByRule.{least_interval_by};

use crate::Rule;
use crate::common::by_rank::Frame;
use crate::common::tasks::{Chosen, Ordered};
use crate::common::{by_rank, choice};
use sheet::Table;

impl<'a> Chosen<'a> {
    // The tasks at another fault interval.
    fn at_interval(&self, interval: u16) -> Chosen<'a>
        requires { 1 ≤ interval }
        ensures { chosen_in result ≡ ranked self.now.tasks.columns.now (at_interval self.now.tasks.frame interval) self.now.faults.now }
    {
        let columns = self.tasks.columns;
        let frame = self.tasks.frame;
        let tasks = Ordered {
            columns,
            frame: Frame { interval, ..frame },
        };
        Chosen {
            tasks,
            faults: self.faults,
        }
    }
}

// The least interval at which a good table whose tasks are lent meets a rule, where there is one. None does at 1, and what meets it at one interval does at a larger one; so where 65,535 fails there is none,
// and where it does not, what lies between an interval that fails and one that does not is halved until nothing lies between: at most sixteen verdicts more.
fn halved(table: Table, among: &Chosen<'_>, rule: Rule) -> Option<u16>
    requires good { table_refusal table ≡ 0 }
    requires filled { ColumnsOf table among.now.tasks.columns.now }
    requires beside { FaultsOf table (own_choice table) among.now.faults.now }
    requires framed { among.now.tasks.frame ≡ frame_of table table.interval }
    ensures { result ≡ some_of (least_interval_by rule table) }
{
    if !among.at_interval(65535).meets(rule) {
        return None;
    }
    let mut fails: u32 = 1;
    let mut meets: u32 = 65535;
    while fails + 1 < meets {
        let middle = (fails + meets) / 2;
        if among.at_interval(middle as u16).meets(rule) {
            meets = middle;
        } else {
            fails = middle;
        }
    }
    Some(meets as u16)
}

// The least interval at which a good table meets a rule with its own fault priorities, where there is one.
pub fn least(table: Table, rule: Rule) -> Option<u16>
    requires { table_refusal table ≡ 0 }
    ensures { result ≡ some_of (least_interval_by rule table) }
{
    let mut columns = [0u16; 32];
    let mut faults = [0u8; 8];
    let among = by_rank::chosen(table, choice::own_choice(table), &mut columns, &mut faults);
    halved(table, &among, rule)
}
