// The priorities of the ready jobs, as the bits of a byte.
ghost use Rattle.std.specs.Prelude.{◌≡◌, ◌+◌, ◌-◌, ◌<◌, ◌&&◌, ◌==◌};
ghost use Rattle.std.specs.Int.Count.{count_leading_zeros};
ghost use Rattle.replay.specs.Ticks.Cells.{is_ready};
ghost use Rattle.replay.specs.Ticks.Runner.{priority_of};
ghost use Rattle.replay.specs.Ticks.Ready.{bits_of, ready_priorities};

use crate::Cell;
use sheet::Record;

// Whether a cell has a job with work left.
pub fn is_ready(cell: Cell) -> bool
    ensures { result ≡ is_ready cell }
{
    cell.left != 0
}

// The priority that a slot's job runs at: its task's for a first attempt, the fault priority for a backup.
fn priority_of(task: Record, slot: usize, cell: Cell) -> u8
    requires { slot < 8 }
    ensures { result ≡ priority_of task slot cell }
{
    if cell.is_backup {
        return task.fault_priority;
    }
    (slot + 1) as u8
}

// The set of one priority, or the empty set.
fn priority_bit(is_there: bool, priority: u8) -> u8
    ensures { result ≡ bits_of (λ below. is_there && priority == below + 1) 8 }
{
    if is_there {
        if priority != 0 {
            if priority <= 8 {
                return 1u8 << (priority - 1);
            }
        }
    }
    0
}

// The set of ready priorities, gathered from the jobs.
pub fn ready_priorities(tasks: [Record; 8], cells: [Cell; 8]) -> u8
    ensures { result ≡ ready_priorities tasks cells }
{
    let mut priorities: u8 = 0;
    for slot in 0..8 {
        let cell = cells[slot];
        priorities = priorities
            | priority_bit(is_ready(cell), priority_of(tasks[slot], slot, cell));
    }
    priorities
}

// The highest priority of a set, or 0.
pub fn top(priorities: u8) -> u8
    ensures { result ≡ 8 - count_leading_zeros 8 priorities }
{
    (8 - u8::leading_zeros(priorities)) as u8
}
