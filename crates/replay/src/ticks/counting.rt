// Counting: what two tallies come to, and the counts.
ghost use Rattle.std.specs.Prelude.{◌≡◌, ◌≤◌};
ghost use Rattle.places.specs.Places.{one_if};
ghost use Rattle.replay.specs.Ticks.Counts.{no_tally, added, unfinished_in, counts_from};

use crate::ticks::ready;
use crate::{Cell, Counts, Tally};

// 1 for what is counted, 0 for what is not.
pub fn one_if(holds: bool) -> u64
    ensures exact { result ≡ one_if holds }
    ensures small { result ≤ 1 }
{
    if holds { 1 } else { 0 }
}

// The number of jobs with work left.
pub fn unfinished(cells: [Cell; 8]) -> u64
    ensures { result ≡ unfinished_in cells }
{
    let ready = cells.iter().filter(|cell| ready::is_ready(**cell));
    ready.count() as u64
}

// What two tallies come to, each count on 64 bits.
pub fn add(tally: Tally, more: Tally) -> Tally
    ensures { result ≡ added tally more }
{
    Tally {
        first_attempts: std::num::wrapping_add_u64(tally.first_attempts, more.first_attempts),
        backups: std::num::wrapping_add_u64(tally.backups, more.backups),
        idle: std::num::wrapping_add_u64(tally.idle, more.idle),
        released: std::num::wrapping_add_u64(tally.released, more.released),
        finished: std::num::wrapping_add_u64(tally.finished, more.finished),
        missed: std::num::wrapping_add_u64(tally.missed, more.missed),
    }
}

// Nothing counted yet.
pub fn no_tally() -> Tally
    ensures { result ≡ no_tally }
{
    Tally {
        first_attempts: 0,
        backups: 0,
        idle: 0,
        released: 0,
        finished: 0,
        missed: 0,
    }
}

// The seven counts of a tally and the number of jobs with work left.
pub fn counts_of(tally: Tally, unfinished: u64) -> Counts
    ensures { result ≡ counts_from tally unfinished }
{
    Counts {
        first_attempts: tally.first_attempts,
        backups: tally.backups,
        idle: tally.idle,
        released: tally.released,
        finished: tally.finished,
        missed: tally.missed,
        unfinished,
    }
}
