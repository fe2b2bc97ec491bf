// The ticks of a log or of a record one after the other, the cells held as columns: the one loop over ticks.
ghost use Rattle.std.specs.Prelude.{◌≡◌, ◌+◌, ◌-◌, ◌%◌, ◌≤◌, not, ◌&&◌, List, length, if◌then◌else◌, ◌==◌, slice_index};
ghost use Rattle.replay.specs.declared.Cell.{Cell};
ghost use Rattle.replay.specs.Ticks.Columns.{cells_shown};
ghost use Rattle.replay.specs.Ticks.Counts.{cell_of};
ghost use Rattle.replay.specs.Ticks.Machines.{IsTied};
ghost use Rattle.replay.specs.Logs.Pieces.{holding, running, differs_with, ticked, followed};
ghost use Rattle.replay.specs.Logs.Held.{held_in, KeepsRunner};

use crate::logs::rules;
use crate::ticks::columns::Columns;
use crate::ticks::{bits, counting, phases, ticking};
use crate::{Cell, Following, Tally};

// What the ticks so far have changed beside the cells: the first refusal of a tick, or 0; the ticks that showed what they must, and
// whether one did not; the ticks until the next legal fault; the counts; and the priority of the task that ran last, with whether a job
// has come or gone since it was found.
#[derive(Clone, Copy)]
pub struct Headway {
    pub broken: u8,
    pub same: u64,
    pub differs: bool,
    pub gap: u16,
    pub tally: Tally,
    pub priority: u8,
    pub has_changed: bool,
}

// The bytes of a tick: its releases, its faults and, of a record, what ran in it; a log's has no third, and its second stands for it.
#[derive(Clone, Copy)]
pub struct Tick {
    pub releases: u8,
    pub faults: u8,
    pub ran: u8,
}

// Whether a tick of a record shows another byte than it must; one of a log shows none.
fn is_other(is_record: bool, ran: u8, columns: &Columns, priority: u8) -> bool
    requires { priority ≤ 8 }
    ensures { result ≡ (is_record && not (ran == priority + (if (cell_of (cells_shown columns.now) priority).is_backup then 128 else 0))) }
{
    is_record & (ran != columns.shown(priority))
}

// After a tick that breaks no rule: releases come in, a job runs, and the tick ends.
fn run(following: Following, columns: &mut Columns, headway: Headway, tick: Tick) -> Headway
    requires { KeepsRunner following (cells_shown columns.old) headway }
    ensures run { held_in following (cells_shown columns.new) result ≡ running (held_in following (cells_shown columns.old) headway) tick.releases tick.faults (differs_with (held_in following (cells_shown columns.old) headway) tick.releases tick.ran) }
    ensures kept { KeepsRunner following (cells_shown columns.new) result }
{
    let machine = following.machine;
    let tasks = machine.tasks;
    let releases = tick.releases;
    columns.enter(tasks, releases);
    let last = headway.priority;
    let is_new = headway.has_changed | (releases != 0);
    let runs = columns.kept_runner(last, is_new, tasks);
    let differs = headway.differs | is_other(following.is_record, tick.ran, columns, runs);
    let is_struck = bits::is_marked(tick.faults);
    let more = columns.step(tasks, releases, runs, is_struck);
    let tally = headway.tally;
    Headway {
        broken: headway.broken,
        same: std::num::wrapping_add_u64(headway.same, counting::one_if(!differs)),
        differs,
        gap: phases::gap_after(machine.interval, headway.gap, is_struck),
        tally: counting::add(tally, more),
        priority: runs,
        has_changed: is_struck | (more.finished != 0) | (more.missed != 0),
    }
}

// After one tick more: it is judged, then compared and run.
fn turn(following: Following, columns: &mut Columns, mut headway: Headway, tick: Tick) -> Headway
    requires good { following.start ≡ 0 }
    requires free { headway.broken ≡ 0 }
    requires kept { KeepsRunner following (cells_shown columns.old) headway }
    ensures turn { held_in following (cells_shown columns.new) result ≡ ticked (held_in following (cells_shown columns.old) headway) tick.releases tick.faults tick.ran }
    ensures kept { KeepsRunner following (cells_shown columns.new) result }
{
    let machine = following.machine;
    let is_early = rules::some_early(columns, tick.releases);
    let refusal = rules::judge(
        machine.count,
        headway.gap,
        is_early,
        tick.releases,
        tick.faults,
    );
    if refusal != 0 {
        headway.broken = refusal;
        return headway;
    }
    run(following, columns, headway, tick)
}

// Before the first tick.
fn headway_of(following: Following) -> Headway
    requires { IsTied following.machine }
    ensures held { (cells : List Cell) → cells ≡ following.machine.cells → held_in following cells result ≡ holding following 0 0 0 }
    ensures kept { (cells : List Cell) → KeepsRunner following cells result }
{
    let machine = following.machine;
    let tally = machine.tally;
    Headway {
        broken: following.broken,
        same: following.same,
        differs: following.differs,
        gap: machine.gap,
        tally,
        priority: 0,
        has_changed: true,
    }
}

// What is kept after ticks that have come to these cells and this headway; no byte is held.
fn kept(following: Following, cells: [Cell; 8], headway: Headway) -> Following
    ensures { result ≡ held_in following cells headway }
{
    let machine = following.machine;
    let tally = headway.tally;
    Following {
        is_record: following.is_record,
        start: following.start,
        broken: headway.broken,
        machine: ticking::machine_in(machine, cells, headway.gap, tally),
        same: headway.same,
        differs: headway.differs,
        holds: 0,
        releases: 0,
        faults: 0,
    }
}

// The tick of so many bytes that starts at an index.
fn tick_at(bytes: &[u8], at: usize, width: usize) -> Tick
    requires two { 2 ≤ width }
    requires there { at + width ≤ length bytes.now }
    ensures { result ≡ record { releases = slice_index bytes.now at; faults = slice_index bytes.now (at + 1); ran = slice_index bytes.now (at + width - 1) } }
{
    Tick {
        releases: bytes[at],
        faults: bytes[at + 1],
        ran: bytes[at + width - 1],
    }
}

// After whole ticks, of so many bytes each, none being held: each is judged, compared and run, unless something before it is refused.
pub fn go_over(following: Following, bytes: &[u8], width: usize) -> Following
    requires width { width ≡ (if following.is_record then 3 else 2) }
    requires whole { length bytes.now % width ≡ 0 }
    requires tied { IsTied following.machine }
    ensures { result ≡ followed (holding following 0 0 0) bytes.now }
{
    let machine = following.machine;
    let cells = machine.cells;
    let mut columns = Columns::of(cells);
    let mut headway = headway_of(following);
    let mut at: usize = 0;
    while (following.start == 0) & (headway.broken == 0) & (width <= bytes.len() - at) {
        let tick = tick_at(bytes, at, width);
        headway = turn(following, &mut columns, headway, tick);
        at += width;
    }
    kept(following, columns.cells(), headway)
}
