// How large a backup each record bears, found once for a table by a few searches over its tasks by rank.
ghost use Rattle.std.specs.Prelude.{◌≡◌, ℕ, cond, [], ◌≤◌, ◌*◌, max, ◌-◌, ◌/◌, ◌%◌, leb, replicate};
ghost use Rattle.places.specs.Places.{most_below, filled_below};
ghost use Rattle.sheet.specs.Rules.{table_refusal};
ghost use Rattle.analysis.specs.Common.Search.{least_within};
ghost use Rattle.analysis.specs.Bounds.Limits.{asked_with, bears, borne, limit_of, limit_at};
ghost use Rattle.analysis.specs.Common.ByRank.{frame_of, backup_in, ColumnsOf};
ghost use Rattle.analysis.specs.Common.Lent.{tasks_in, asked_in};

use crate::Rule;
use crate::common::search::Search;
use crate::common::tasks::{Bearer, Ordered};
use crate::common::{by_rank, load};
use sheet::Table;

impl<'a> Bearer<'a> {
    // The search for its time by the published equations, with a largest backup: as M where the fault priority is 0, else as N.
    fn published(&self, backup: u16) -> Search<'a>
        ensures { (limit : ℕ) → least_within (asked_in result) 1 limit ≡ least_within (asked_with (tasks_in self.now.tasks) self.now.rank self.now.fault backup) 1 limit }
    {
        if self.fault == 0 {
            return self.elsewhere(backup);
        }
        self.itself(backup)
    }

    // Whether it is on time with a largest backup under a rule.
    pub fn bears(&self, backup: u16, rule: Rule) -> bool
        ensures { result ≡ bears rule (tasks_in self.now.tasks) self.now.rank self.now.fault backup }
    {
        let limit = load::wide(self.tasks.columns[24 + self.rank]);
        match rule {
            Rule::Published => self.published(backup).reaches(limit),
            Rule::Assured => self.assurance(backup).reaches(limit),
        }
    }

    // The limit so far, or one more than a backup that is borne. A backup below the limit so far needs no search.
    fn raised(&self, backup: u16, limit: u32, rule: Rule) -> u32
        ensures { result ≡ max limit (borne (bears rule (tasks_in self.now.tasks) self.now.rank self.now.fault) backup) }
    {
        let next = load::half_wide(backup) + 1;
        if next <= limit {
            return limit;
        }
        if self.bears(backup, rule) {
            return next;
        }
        limit
    }

    // Its limit: over each task's backup, and over none. The largest is tried first: where it is borne, none of the others needs a search.
    fn limit(&self, largest: u16, rule: Rule) -> u32
        requires { largest ≡ most_below (backup_in self.now.tasks.columns.now) self.now.tasks.frame.count }
        ensures { result ≡ limit_of (bears rule (tasks_in self.now.tasks) self.now.rank self.now.fault) (backup_in self.now.tasks.columns.now) self.now.tasks.frame.count }
    {
        let mut most = self.raised(largest, 0, rule);
        for other in 0..self.tasks.frame.count as usize {
            most = self.raised(self.tasks.columns[16 + other], most, rule);
        }
        self.raised(0, most, rule)
    }
}

impl Ordered<'_> {
    // The largest backup of all tasks.
    fn largest_backup(&self) -> u16
        ensures { result ≡ most_below (backup_in self.now.columns.now) self.now.frame.count }
    {
        load::most(self.frame.count as usize, |rank| self.columns[16 + rank])
    }

    // The limit of the task of a priority, 0 past it.
    fn limit_at(&self, priority: u8, fault: u8, largest: u16, rule: Rule) -> u32
        requires some { 1 ≤ priority }
        requires within { priority ≤ self.now.frame.count }
        requires largest { largest ≡ most_below (backup_in self.now.columns.now) self.now.frame.count }
        ensures { result ≡ cond (leb fault priority) (limit_of (bears rule (tasks_in self.now) (self.now.frame.count - priority) fault) (backup_in self.now.columns.now) self.now.frame.count) 0 }
    {
        if priority < fault {
            return 0;
        }
        let bearer = Bearer {
            tasks: *self,
            rank: by_rank::rank_of(self.frame.count, priority),
            fault,
        };
        bearer.limit(largest, rule)
    }
}

// Every limit of a good table under a rule, found over its tasks.
pub fn limits_in(table: Table, tasks: &Ordered<'_>, rule: Rule) -> [u32; 72]
    requires good { table_refusal table ≡ 0 }
    requires filled { ColumnsOf table tasks.now.columns.now }
    requires framed { tasks.now.frame ≡ frame_of table table.interval }
    ensures { result ≡ filled_below (λ k. limit_at rule table (k / 9) (k % 9)) (9 * table.count) (replicate 72 0) }
{
    let largest = tasks.largest_backup();
    let end = 9 * table.count as usize;
    let mut limits = [0u32; 72];
    for at in 0..end {
        let priority = table.records[at / 9].priority;
        limits[at] = tasks.limit_at(priority, (at % 9) as u8, largest, rule);
    }
    limits
}
