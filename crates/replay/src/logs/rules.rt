// The rules that each tick of a log is judged by: 15, 16, 17, in that order.
ghost use Rattle.std.specs.Prelude.{◌≡◌, ◌<◌, cond, if◌then◌else◌};
ghost use Rattle.replay.specs.Ticks.Cells.{cell_at};
ghost use Rattle.replay.specs.Ticks.Columns.{cells_shown};
ghost use Rattle.replay.specs.Logs.Rules.{is_strange, is_early, some_early, is_hasty};

use crate::Cell;
use crate::ticks::bits;
use crate::ticks::columns::Columns;

// Whether a slot is released that has to wait.
fn is_early(releases: u8, slot: usize, cell: Cell) -> bool
    requires { slot < 8 }
    ensures { result ≡ is_early releases slot cell }
{
    if bits::is_released(releases, slot) {
        return cell.wait != 0;
    }
    false
}

// Whether one of the bits is set that are to be zero.
fn is_strange(count: u8, releases: u8, faults: u8) -> bool
    ensures { result ≡ is_strange count releases faults }
{
    bits::is_above(releases, count) | bits::has_other(faults)
}

// Whether a fault is marked sooner than the interval after the last.
fn is_hasty(gap: u16, faults: u8) -> bool
    ensures { result ≡ is_hasty gap faults }
{
    bits::is_marked(faults) & (gap != 0)
}

// Whether some task is released sooner than its period after its last release. In most ticks none is.
pub fn some_early(columns: &Columns, releases: u8) -> bool
    ensures { result ≡ some_early releases (cell_at (cells_shown columns.now)) }
{
    if releases == 0 {
        return false;
    }
    let cells = columns.cells();
    (0..8).any(|slot| is_early(releases, slot, cells[slot]))
}

// The first rule that a tick breaks, or 0, given whether it releases a task too soon.
pub fn judge(count: u8, gap: u16, is_early: bool, releases: u8, faults: u8) -> u8
    ensures { result ≡ (if is_strange count releases faults then 15 else cond is_early 16 (if is_hasty gap faults then 17 else 0)) }
{
    if is_strange(count, releases, faults) {
        return 15;
    }
    if is_early {
        return 16;
    }
    if is_hasty(gap, faults) {
        return 17;
    }
    0
}
