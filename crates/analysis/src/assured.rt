// The assured times: N, the largest backup of those that run before the backup of a task, and its own; and whether the task has a time with it within its deadline.
// N is found among tasks by rank, and out of lists in record order for the bounds.
ghost use Rattle.std.specs.Prelude.{◌≡◌, ◌<◌, ◌&&◌, ◌||◌, eqb, ltb};
ghost use Rattle.analysis.specs.Assured.Equation.{backup_ahead};
ghost use Rattle.analysis.specs.Assured.Time.{unassured};
ghost use Rattle.analysis.specs.Assured.Ahead.{largest_ahead};
ghost use Rattle.analysis.specs.Common.Lent.{chosen_in};

use crate::Equation;
use crate::bounding::weighed::Weighed;
use crate::common::load;
use crate::common::tasks::Task;

pub mod times;

impl Task<'_> {
    // N of the task: of the tasks before it those count whose fault priority is no lower than its own, of those after it only those whose is higher.
    pub fn backup_ahead(&self) -> u16
        ensures { result ≡ backup_ahead (chosen_in self.now.among) self.now.rank }
    {
        let tasks = self.among.tasks;
        let fault = self.among.faults[self.rank];
        let before = self.among.largest(self.rank, fault);
        let mut most = before.max(tasks.columns[16 + self.rank]);
        for other in self.rank + 1..tasks.frame.count as usize {
            let backup = tasks.columns[16 + other];
            most = most.max(load::counted(fault < self.among.faults[other], backup));
        }
        most
    }

    // Whether it has no assured time within its deadline.
    pub fn is_unassured(&self) -> bool
        ensures { result ≡ unassured (chosen_in self.now.among) self.now.rank }
    {
        let deadline = load::wide(self.among.tasks.columns[24 + self.rank]);
        !self.has_time(deadline, Equation::Assurance)
    }
}

// Whether a task is another's itself, or has a higher fault priority, or the same one and a higher priority.
fn is_ahead(is_itself: bool, own_fault: u8, fault: u8, own_priority: u8, priority: u8) -> bool
    ensures { result ≡ (is_itself || (ltb own_fault fault || (eqb fault own_fault && ltb own_priority priority))) }
{
    is_itself | ((own_fault < fault) | ((fault == own_fault) & (own_priority < priority)))
}

impl Weighed<'_> {
    // N of the record at a place, out of lists in record order.
    pub fn largest_ahead(&self, place: usize) -> u16
        requires { place < 8 }
        ensures { result ≡ largest_ahead self.now.backups.now self.now.priorities.now self.now.choice.now place self.now.count }
    {
        load::most(self.count as usize, |other| {
            let ahead = is_ahead(
                other == place,
                self.choice[place],
                self.choice[other],
                self.priorities[place],
                self.priorities[other],
            );
            load::counted(ahead, self.backups[other])
        })
    }
}
