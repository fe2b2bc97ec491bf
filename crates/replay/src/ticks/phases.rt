// What the phases of a tick share: a cell without a job, a tick less, and the ticks until the next legal fault.
ghost use Rattle.std.specs.Prelude.{◌≡◌, ◌-◌};
ghost use Rattle.replay.specs.Ticks.Cells.{no_cell};
ghost use Rattle.replay.specs.Ticks.Step.{gap_after};

use crate::Cell;

// A cell without a job.
pub fn no_cell() -> Cell
    ensures { result ≡ no_cell }
{
    Cell {
        is_backup: false,
        left: 0,
        rest: 0,
        wait: 0,
    }
}

// A number less one, or 0.
pub fn less_one(x: u16) -> u16
    ensures { result ≡ x - 1 }
{
    if x == 0 {
        return 0;
    }
    x - 1
}

// The ticks until the next legal fault, after a tick.
pub fn gap_after(interval: u16, gap: u16, is_marked: bool) -> u16
    ensures { result ≡ gap_after interval is_marked gap }
{
    if is_marked {
        return less_one(interval);
    }
    less_one(gap)
}
