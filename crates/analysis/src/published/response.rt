// The published times of a task: the largest backups that they are asked with, the response time, which is the larger of both, and whether the task is late.
ghost use Rattle.std.specs.Prelude.{◌≡◌, ◌<◌};
ghost use Rattle.analysis.specs.Common.Backups.{backup_elsewhere, backup_from_fault};
ghost use Rattle.analysis.specs.Published.Response.{response_within, late};
ghost use Rattle.analysis.specs.Common.Lent.{chosen_in};

use crate::Equation;
use crate::common::load;
use crate::common::tasks::Task;

impl Task<'_> {
    // The largest backup that a fault elsewhere brings to it: one at or above its priority is that of a task before it.
    pub fn backup_elsewhere(&self) -> u16
        ensures { result ≡ backup_elsewhere (chosen_in self.now.among) self.now.rank }
    {
        let count = self.among.tasks.frame.count;
        self.among.largest(self.rank, count - self.rank as u8)
    }

    // The largest backup from its fault priority on: one at or above that is that of a task before the last, or of the last.
    pub fn backup_from_fault(&self) -> u16
        ensures { result ≡ backup_from_fault (chosen_in self.now.among) self.now.rank }
    {
        let count = self.among.tasks.frame.count;
        let fault = self.among.faults[self.rank];
        self.among.largest((count - fault) as usize + 1, fault)
    }

    // Its response time within a limit, or 0.
    pub fn response(&self, limit: u64) -> u16
        requires { limit < 65536 }
        ensures { result ≡ response_within limit (chosen_in self.now.among) self.now.rank }
    {
        let first = self.time(limit, Equation::Elsewhere);
        if first == 0 {
            return 0;
        }
        let second = self.time(limit, Equation::Itself);
        if second == 0 {
            return 0;
        }
        if first < second {
            second as u16
        } else {
            first as u16
        }
    }

    // Whether it is late: it has no response time within its deadline, whichever that is.
    pub fn is_late(&self) -> bool
        ensures { result ≡ late (chosen_in self.now.among) self.now.rank }
    {
        let deadline = load::wide(self.among.tasks.columns[24 + self.rank]);
        if self.has_time(deadline, Equation::Elsewhere) {
            return !self.has_time(deadline, Equation::Itself);
        }
        true
    }
}
