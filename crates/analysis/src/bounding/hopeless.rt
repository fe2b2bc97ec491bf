// Whether a record is late under every choice: the lowest task, or one because of its own backup.
ghost use Rattle.std.specs.Prelude.{◌≡◌, ◌≤◌, ◌-◌, replicate};
ghost use Rattle.places.specs.Places.{some_below};
ghost use Rattle.sheet.specs.Rules.{table_refusal};
ghost use Rattle.analysis.specs.Published.Response.{late};
ghost use Rattle.analysis.specs.Bounds.Hopeless.{own_missed, none_meets};
ghost use Rattle.analysis.specs.Common.ByRank.{ranked, frame_of, ColumnsOf};
ghost use Rattle.analysis.specs.Common.Lent.{tasks_in};

use crate::Rule;
use crate::common::tasks::{Bearer, Chosen, Ordered, Task};
use sheet::Table;

// A table of so few records has 24 choices at most, and its own backups are not asked about.
const FEW_RECORDS: u8 = 4;

impl Ordered<'_> {
    // Whether some task does not bear its own backup though it runs at its own priority.
    fn own_missed(&self) -> bool
        ensures { result ≡ some_below (own_missed (tasks_in self.now)) self.now.frame.count }
    {
        for rank in 0..self.frame.count as usize {
            let bearer = Bearer {
                tasks: *self,
                rank,
                fault: self.frame.count - rank as u8,
            };
            if !bearer.bears(self.columns[16 + rank], Rule::Published) {
                return true;
            }
        }
        false
    }

    // Whether the lowest task, which is the last by rank, is late where every fault priority is 1: as it is under every choice.
    fn lowest_late(&self) -> bool
        requires { 1 ≤ self.now.frame.count }
        ensures { result ≡ late (ranked self.now.columns.now self.now.frame (replicate 8 1)) (self.now.frame.count - 1) }
    {
        let faults = [1u8; 8];
        let among = Chosen {
            tasks: *self,
            faults: &faults,
        };
        let task = Task {
            among,
            rank: self.frame.count as usize - 1,
        };
        task.is_late()
    }
}

// Whether the lowest task of a good table whose tasks are lent is late, or, where it has more than a few records, some record does not bear its own backup.
pub fn none_meets(table: Table, tasks: &Ordered<'_>) -> bool
    requires good { table_refusal table ≡ 0 }
    requires filled { ColumnsOf table tasks.now.columns.now }
    requires framed { tasks.now.frame ≡ frame_of table table.interval }
    ensures { result ≡ none_meets table }
{
    if tasks.lowest_late() {
        return true;
    }
    if table.count <= FEW_RECORDS {
        return false;
    }
    tasks.own_missed()
}
