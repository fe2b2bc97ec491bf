// A log or a record in pieces: the whole ticks of one are gone over at once, and a byte of a tick that it cuts is held until the tick is whole.
ghost use Rattle.std.specs.Prelude.{◌≡◌, ◌%◌, ◌≤◌, cond, length, if◌then◌else◌, nat_eq};
ghost use Rattle.places.specs.Refusals.{or_else};
ghost use Rattle.replay.specs.Ticks.Machines.{IsTied};
ghost use Rattle.replay.specs.Logs.Answers.{go_on_answer};
ghost use Rattle.replay.specs.Logs.Pieces.{before_bytes, after_tick, stepped, AtOnce, followed, tied_in};

use crate::logs::going;
use crate::ticks::ticking;
use crate::{Following, Machine, Run};

// Before the first byte of a log or of a record.
pub fn before_bytes(is_record: bool, started: Run) -> Following
    ensures { result ≡ before_bytes is_record started }
{
    let machine = started.machine;
    Following {
        is_record,
        start: started.refusal,
        broken: 0,
        machine,
        same: 0,
        differs: false,
        holds: 0,
        releases: 0,
        faults: 0,
    }
}

// With the ready priorities of the machine's own jobs.
pub fn tied(mut following: Following) -> Following
    ensures { result ≡ tied_in following }
{
    let machine = following.machine;
    following.machine = ticking::tied(machine);
    following
}

// After a tick that is whole.
fn tick(following: Following, releases: u8, faults: u8, ran: u8) -> Following
    requires { IsTied following.machine }
    ensures { result ≡ after_tick following releases faults ran }
{
    let width = tick_width(following.is_record);
    let bytes = [releases, faults, ran];
    going::go_over(following, &bytes[..width], width)
}

// After one byte more.
fn step(mut following: Following, byte: u8) -> Following
    requires { IsTied following.machine }
    ensures { result ≡ stepped following byte }
{
    let holds = following.holds;
    if holds == 0 {
        following.holds = 1;
        following.releases = byte;
        following.faults = 0;
        return following;
    }
    if following.is_record {
        if holds == 1 {
            following.holds = 2;
            following.faults = byte;
            return following;
        }
        return tick(following, following.releases, following.faults, byte);
    }
    tick(following, following.releases, byte, byte)
}

// The number of bytes of a tick.
fn tick_width(is_record: bool) -> usize
    ensures exact { result ≡ cond is_record 3 2 }
    ensures some { 1 ≤ result }
{
    if is_record { 3 } else { 2 }
}

// How many of the bytes to come are taken next: whole ticks' where none is held, or one.
pub fn next_bytes(is_record: bool, holds: u8, room: usize) -> usize
    requires { 1 ≤ room }
    ensures some { 1 ≤ result }
    ensures within { result ≤ room }
    ensures once { AtOnce is_record holds result }
{
    if holds != 0 {
        return 1;
    }
    let width = tick_width(is_record);
    if room < width {
        return 1;
    }
    room - room % width
}

// After whole ticks where none is held, or one byte.
pub fn go_on(following: Following, bytes: &[u8]) -> Following
    requires once { AtOnce following.is_record following.holds (length bytes.now) }
    requires tied { IsTied following.machine }
    ensures { result ≡ followed following bytes.now }
{
    if bytes.len() == 1 {
        return step(following, bytes[0]);
    }
    going::go_over(following, bytes, tick_width(following.is_record))
}

// The refusal if no byte follows: the sheet's, then 14 where a tick is not whole, then that of the ticks.
pub fn refusal_at(start: u8, holds: u8, broken: u8) -> u8
    ensures { result ≡ or_else start (if nat_eq holds 0 then broken else 14) }
{
    if start != 0 {
        return start;
    }
    if holds != 0 {
        return 14;
    }
    broken
}

// The machine after a log of whole ticks.
pub fn log_over(machine: Machine, log: &[u8]) -> Run
    requires whole { length log.now % 2 ≡ 0 }
    requires tied { IsTied machine }
    ensures { result ≡ go_on_answer machine log.now }
{
    let following = before_bytes(
        false,
        Run {
            refusal: 0,
            machine,
        },
    );
    let gone = going::go_over(following, log, 2);
    let refusal = gone.broken;
    if refusal != 0 {
        return Run {
            refusal,
            machine: ticking::no_machine(),
        };
    }
    let last = gone.machine;
    Run {
        refusal: 0,
        machine: last,
    }
}
