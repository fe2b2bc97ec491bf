// The cells of the eight slots as columns, which the phases of a tick change in place.
ghost use Rattle.std.specs.Prelude.{◌≡◌, ◌+◌, ◌≤◌, false, cond, not, ◌&&◌, leb, if◌then◌else◌, ◌==◌, nat_le};
ghost use Rattle.places.specs.Places.{one_if, count_below};
ghost use Rattle.sheet.specs.Layout.{record_at};
ghost use Rattle.replay.specs.Ticks.Cells.{cell_at, eight};
ghost use Rattle.replay.specs.Ticks.Columns.{cells_shown};
ghost use Rattle.replay.specs.Ticks.Runner.{runner};
ghost use Rattle.replay.specs.Ticks.Counts.{cell_of, gains};
ghost use Rattle.replay.specs.Ticks.Step.{entered, ran, faulted, is_missed, ended};

use crate::ticks::{bits, counting, phases, ready, runner};
use crate::{Cell, Tally};
use sheet::Record;

// The work that each job has left, the ticks until its deadline, the ticks until the next legal release, and 1 for a backup.
#[derive(Clone, Copy)]
pub struct Columns {
    pub left: [u16; 8],
    pub rest: [u16; 8],
    pub wait: [u16; 8],
    pub backups: [u16; 8],
}

// The number of a cell's kind: 1 for a backup.
fn backup_number(is_backup: bool) -> u16
    ensures { result ≡ one_if is_backup }
{
    if is_backup { 1 } else { 0 }
}

// A slot's cell.
fn cell_in(left: u16, rest: u16, wait: u16, backup: u16) -> Cell
    ensures { result ≡ record { is_backup = not (backup == 0); left = left; rest = rest; wait = wait } }
{
    Cell {
        is_backup: backup != 0,
        left,
        rest,
        wait,
    }
}

// Whether a job is unfinished at the end of its last tick.
fn is_missed(left: u16, rest: u16) -> bool
    ensures { result ≡ (nat_le rest 1 && not (left == 0)) }
{
    (rest <= 1) & (left != 0)
}

// The work left at a tick's end: none where the deadline is reached.
fn left_after(left: u16, rest: u16) -> u16
    ensures { result ≡ (if leb rest 1 then 0 else left) }
{
    if rest <= 1 {
        return 0;
    }
    left
}

// A number where it is picked, else another.
fn picked(is_picked: bool, number: u16, other: u16) -> u16
    ensures { result ≡ cond is_picked number other }
{
    if is_picked {
        return number;
    }
    other
}

impl Columns {
    // The columns of cells.
    pub fn of(cells: [Cell; 8]) -> Columns
        ensures { cells_shown result ≡ cells }
    {
        let mut columns = Columns {
            left: [0u16; 8],
            rest: [0u16; 8],
            wait: [0u16; 8],
            backups: [0u16; 8],
        };
        for slot in 0..8 {
            let cell = cells[slot];
            columns.left[slot] = cell.left;
            columns.rest[slot] = cell.rest;
            columns.wait[slot] = cell.wait;
            columns.backups[slot] = backup_number(cell.is_backup);
        }
        columns
    }

    // The cells of columns.
    pub fn cells(&self) -> [Cell; 8]
        ensures { result ≡ cells_shown self.now }
    {
        let mut cells = [phases::no_cell(); 8];
        for slot in 0..8 {
            cells[slot] = cell_in(
                self.left[slot],
                self.rest[slot],
                self.wait[slot],
                self.backups[slot],
            );
        }
        cells
    }

    // The tick ends; how many jobs are missed.
    fn end(&mut self) -> u64
        ensures cells { cells_shown self.new ≡ eight (λ slot. ended (cell_at (cells_shown self.old) slot)) }
        ensures missed { result ≡ count_below (λ slot. is_missed (cell_at (cells_shown self.old) slot)) 8 }
    {
        let mut missed: u64 = 0;
        for slot in 0..8 {
            missed += counting::one_if(is_missed(self.left[slot], self.rest[slot]));
            self.left[slot] = left_after(self.left[slot], self.rest[slot]);
            self.rest[slot] = phases::less_one(self.rest[slot]);
            self.wait[slot] = phases::less_one(self.wait[slot]);
        }
        missed
    }

    // Releases come in. In most ticks there are none.
    pub fn enter(&mut self, tasks: [Record; 8], releases: u8)
        ensures { cells_shown self.new ≡ eight (entered (record_at tasks) releases (cell_at (cells_shown self.old))) }
    {
        if releases == 0 {
            return;
        }
        for slot in 0..8 {
            let is_here = bits::is_released(releases, slot);
            let task = tasks[slot];
            self.left[slot] = picked(is_here, task.cost, self.left[slot]);
            self.rest[slot] = picked(is_here, task.deadline, self.rest[slot]);
            self.wait[slot] = picked(is_here, task.period, self.wait[slot]);
            self.backups[slot] = picked(is_here, 0, self.backups[slot]);
        }
    }

    // The job of the task that runs works one tick, or is struck: its full backup takes its place.
    fn run(&mut self, tasks: [Record; 8], priority: u8, is_struck: bool)
        requires { priority ≤ 8 }
        ensures { cells_shown self.new ≡ eight (faulted (record_at tasks) is_struck priority (ran priority (cell_at (cells_shown self.old)))) }
    {
        if priority == 0 {
            return;
        }
        let at = (priority - 1) as usize;
        if is_struck {
            self.left[at] = tasks[at].backup;
            self.backups[at] = 1;
            return;
        }
        self.left[at] = phases::less_one(self.left[at]);
    }

    // The priority of the task that runs, as it was unless a job came or went: then it is found anew.
    pub fn kept_runner(&self, priority: u8, has_changed: bool, tasks: [Record; 8]) -> u8
        requires small { priority ≤ 8 }
        requires kept { has_changed ≡ false → priority ≡ runner (record_at tasks) (cell_at (cells_shown self.now)) }
        ensures exact { result ≡ runner (record_at tasks) (cell_at (cells_shown self.now)) }
        ensures small { result ≤ 8 }
    {
        if has_changed {
            let cells = self.cells();
            return runner::runner(tasks, cells, ready::ready_priorities(tasks, cells));
        }
        priority
    }

    // Whether the job of a priority is a backup.
    fn is_backup(&self, priority: u8) -> bool
        requires { priority ≤ 8 }
        ensures { result ≡ (cell_of (cells_shown self.now) priority).is_backup }
    {
        if priority == 0 {
            return false;
        }
        let at = (priority - 1) as usize;
        self.backups[at] != 0
    }

    // Whether the job of a priority has no work left.
    fn is_done(&self, priority: u8) -> bool
        requires { priority ≤ 8 }
        ensures { result ≡ (not (priority == 0) && (cell_of (cells_shown self.now) priority).left == 0) }
    {
        if priority == 0 {
            return false;
        }
        let at = (priority - 1) as usize;
        self.left[at] == 0
    }

    // What a tick must show, given the task that runs: its priority, with the top bit set for a backup.
    pub fn shown(&self, priority: u8) -> u8
        requires { priority ≤ 8 }
        ensures { result ≡ priority + (if (cell_of (cells_shown self.now) priority).is_backup then 128 else 0) }
    {
        if self.is_backup(priority) {
            return priority + 128;
        }
        priority
    }

    // The job of the task that runs works one tick or is struck, and the tick ends: what the tick adds to the counts.
    pub fn step(&mut self, tasks: [Record; 8], releases: u8, priority: u8, is_struck: bool) -> Tally
        requires { priority ≤ 8 }
        ensures gains { result ≡ gains releases priority (cells_shown self.old) (eight (faulted (record_at tasks) is_struck priority (ran priority (cell_at (cells_shown self.old))))) }
        ensures cells { cells_shown self.new ≡ eight (λ slot. ended (cell_at (eight (faulted (record_at tasks) is_struck priority (ran priority (cell_at (cells_shown self.old))))) slot)) }
    {
        let is_idle = priority == 0;
        let was_backup = self.is_backup(priority);
        self.run(tasks, priority, is_struck);
        let is_out = self.is_done(priority);
        let missed = self.end();
        Tally {
            first_attempts: counting::one_if(!is_idle & !was_backup),
            backups: counting::one_if(!is_idle & was_backup),
            idle: counting::one_if(is_idle),
            released: bits::released(releases),
            finished: counting::one_if(is_out),
            missed,
        }
    }
}
