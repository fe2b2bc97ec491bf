// The searches for the times of a task with any largest backup, struck elsewhere and struck itself.
ghost use Rattle.std.specs.Prelude.{◌≡◌, ℕ};
ghost use Rattle.analysis.specs.Common.Search.{least_within};
ghost use Rattle.analysis.specs.Published.Equations.{asked_elsewhere, asked_itself};
ghost use Rattle.analysis.specs.Published.Demands.{elsewhere_demand, itself_demand};
ghost use Rattle.analysis.specs.Common.Lent.{tasks_in, demand_in, asked_in};

use crate::common::load;
use crate::common::search::Search;
use crate::common::tasks::Bearer;

impl<'a> Bearer<'a> {
    // The search for its time when faults strike other tasks only.
    pub fn elsewhere(&self, backup: u16) -> Search<'a>
        ensures same { demand_in result ≡ elsewhere_demand (tasks_in self.now.tasks) self.now.rank backup }
        ensures found { (limit : ℕ) → least_within (asked_in result) 1 limit ≡ least_within (asked_elsewhere (tasks_in self.now.tasks) self.now.rank backup) 1 limit }
    {
        let rank = self.rank;
        let base = load::wide(self.tasks.columns[rank]);
        Search {
            tasks: self.tasks,
            base,
            rank,
            until: 0,
            backup,
            paid: 0,
        }
    }

    // The search for its time when the first fault strikes it: each task above its fault priority and after it runs once more.
    pub fn itself(&self, backup: u16) -> Search<'a>
        ensures same { demand_in result ≡ itself_demand (tasks_in self.now.tasks) self.now.rank self.now.fault backup }
        ensures found { (limit : ℕ) → least_within (asked_in result) 1 limit ≡ least_within (asked_itself (tasks_in self.now.tasks) self.now.rank self.now.fault backup) 1 limit }
    {
        let tasks = self.tasks;
        let rank = self.rank;
        let until = (tasks.frame.count - self.fault) as usize;
        let own = load::wide(tasks.columns[rank]) + load::wide(tasks.columns[16 + rank]);
        let base = own + tasks.once(rank + 1, until);
        Search {
            tasks,
            base,
            rank,
            until,
            backup,
            paid: backup,
        }
    }
}
