// The search for the assured time of a task with any largest backup.
ghost use Rattle.std.specs.Prelude.{◌≡◌, ℕ};
ghost use Rattle.analysis.specs.Common.Search.{least_within};
ghost use Rattle.analysis.specs.Assured.Equation.{asked_assured};
ghost use Rattle.analysis.specs.Assured.Demand.{assured_demand};
ghost use Rattle.analysis.specs.Common.Lent.{tasks_in, demand_in, asked_in};

use crate::common::load;
use crate::common::search::Search;
use crate::common::tasks::Bearer;

impl<'a> Bearer<'a> {
    // The search for its assured time.
    pub fn assurance(&self, backup: u16) -> Search<'a>
        ensures same { demand_in result ≡ assured_demand (tasks_in self.now.tasks) self.now.rank self.now.fault backup }
        ensures found { (limit : ℕ) → least_within (asked_in result) 1 limit ≡ least_within (asked_assured (tasks_in self.now.tasks) self.now.rank self.now.fault backup) 1 limit }
    {
        let tasks = self.tasks;
        let rank = self.rank;
        let until = (tasks.frame.count - self.fault) as usize;
        let base = load::wide(tasks.columns[rank]);
        Search {
            tasks,
            base,
            rank,
            until,
            backup,
            paid: 0,
        }
    }
}
