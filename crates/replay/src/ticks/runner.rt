// Which job runs: the highest ready priority, and who goes first at it.
ghost use Rattle.std.specs.Prelude.{◌≡◌, ◌+◌, ◌<◌, ◌≤◌, cond, ◌&&◌, nat_eq};
ghost use Rattle.sheet.specs.Layout.{record_at};
ghost use Rattle.replay.specs.Ticks.Cells.{cell_at, is_ready};
ghost use Rattle.replay.specs.Ticks.Runner.{top_backup, runner};
ghost use Rattle.replay.specs.Ticks.Ready.{ready_priorities};

use crate::Cell;
use crate::ticks::ready;
use sheet::Record;

// Whether a slot's job is a ready backup at the priority.
fn is_backup_at(task: Record, cell: Cell, priority: u8) -> bool
    ensures { result ≡ (cell.is_backup && (is_ready cell && nat_eq task.fault_priority priority)) }
{
    if cell.is_backup {
        if cell.left != 0 {
            return task.fault_priority == priority;
        }
    }
    false
}

// The priority of a slot where the test holds, else what was found below it.
fn found(is_here: bool, slot: usize, below: u8) -> u8
    requires { slot < 8 }
    ensures { result ≡ cond is_here (slot + 1) below }
{
    if is_here {
        return (slot + 1) as u8;
    }
    below
}

// The highest own priority of a ready backup at the priority, or 0.
fn top_backup(tasks: [Record; 8], cells: [Cell; 8], priority: u8) -> u8
    ensures { result ≡ top_backup (record_at tasks) (cell_at cells) priority }
{
    let mut highest: u8 = 0;
    for slot in 0..8 {
        highest = found(
            is_backup_at(tasks[slot], cells[slot], priority),
            slot,
            highest,
        );
    }
    highest
}

// The priority of the task that runs, or 0, given the ready priorities.
pub fn runner(tasks: [Record; 8], cells: [Cell; 8], ready: u8) -> u8
    requires { ready ≡ ready_priorities tasks cells }
    ensures exact { result ≡ runner (record_at tasks) (cell_at cells) }
    ensures small { result ≤ 8 }
{
    let priority = ready::top(ready);
    let backup = top_backup(tasks, cells, priority);
    if backup == 0 {
        return priority;
    }
    backup
}
