// The climb: a length that is too short is followed by what it asks, and after eight trials by a jump. Demands rise with the length, so that no length in between can meet its own;
// the climb ends at the least length that does, or past the limit.
ghost use Rattle.std.specs.Prelude.{◌≡◌, not, ◌+◌, ◌≤◌, ◌<◌, eqb};
ghost use Rattle.analysis.specs.Common.Search.{least_within};
ghost use Rattle.analysis.specs.Common.Jump.{Missed};
ghost use Rattle.analysis.specs.Common.Lent.{asked_in};

use crate::common::search::Search;

// The longest time that is searched for.
pub const LONGEST: u64 = 65535;

// How many trials of a climb are followed by what they ask.
const PLAIN: u8 = 8;

// A trial of a climb, and how many more are followed by what they ask.
#[derive(Clone, Copy)]
pub struct Trial {
    pub length: u64,
    pub plain: u8,
}

impl Search<'_> {
    // The trial after one that is too short: no length between the two meets its demand.
    fn onward(&self, trial: Trial, asked: u64) -> Trial
        requires some { 1 ≤ trial.length }
        requires short { trial.length < 65536 }
        requires asked { asked ≡ asked_in self.now trial.length }
        requires small { asked + self.now.paid ≤ 111666790418 }
        ensures past { asked ≤ result.length }
        ensures short { Missed (asked_in self.now) trial.length result.length }
    {
        let plain = trial.plain;
        if plain == 0 {
            let length = self.jump(trial.length, asked);
            return Trial { length, plain };
        }
        Trial {
            length: asked,
            plain: plain - 1,
        }
    }

    // The least length from the start up to the limit that is at least its demand, or 0.
    fn climb(&self, start: u64, limit: u64) -> u64
        requires some { 1 ≤ start }
        requires short { limit < 65536 }
        ensures same { result ≡ least_within (asked_in self.now) start limit }
        ensures small { result < 65536 }
    {
        let mut trial = Trial {
            length: start,
            plain: PLAIN,
        };
        while trial.length <= limit {
            let length = trial.length;
            let asked = self.asked(length);
            if asked <= length {
                return length;
            }
            trial = self.onward(trial, asked);
        }
        0
    }

    // The least length up to the limit that is at least its demand, or 0. None is shorter than what is asked of a length of 1, so the climb starts there.
    pub fn least(&self, limit: u64) -> u64
        requires { limit < 65536 }
        ensures same { result ≡ least_within (asked_in self.now) 1 limit }
        ensures small { result < 65536 }
    {
        self.climb(self.least_asked(), limit)
    }

    // Whether there is such a length. The limit itself is asked first: where it meets its demand, there is one, whichever is the least.
    pub fn reaches(&self, limit: u64) -> bool
        requires { limit < 65536 }
        ensures { result ≡ not (eqb (least_within (asked_in self.now) 1 limit) 0) }
    {
        let start = self.least_asked();
        if limit < start {
            return false;
        }
        if self.asked(limit) <= limit {
            return true;
        }
        self.climb(start, limit) != 0
    }
}
