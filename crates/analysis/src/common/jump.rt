// A length that no shorter one can meet, from a trial that is too short: what comes often is taken at its rate, what comes seldom as often as in the trial.
ghost use Rattle.std.specs.Prelude.{◌≡◌, ◌+◌, ◌≤◌, ◌<◌, ◌*◌, ◌/◌};
ghost use Rattle.analysis.specs.Common.Rounding.{up};
ghost use Rattle.analysis.specs.Common.Demand.{runs_of};
ghost use Rattle.analysis.specs.Common.ByRank.{run_of};
ghost use Rattle.analysis.specs.Common.Lent.{tasks_in, asked_in};
ghost use Rattle.analysis.specs.Common.Jump.{unit, further_of, struck_of, Taking, TakingFaults, TakingBoth, Missed};

use crate::common::load;
use crate::common::search::Search;
use crate::common::taken::{Jump, Taken};

// Rates are counted in parts of 2^24.
const UNIT: u64 = 16777216;

// The length found, or the one at which the rates and the rest are met.
fn further(found: u64, rate: u64, rest: u64, paid: u64) -> u64
    requires small { rest < 137438953472 }
    ensures { result ≡ further_of found rate rest paid }
{
    if rest <= paid {
        return found;
    }
    if UNIT <= rate {
        return found.max(65536);
    }
    let left = UNIT - rate;
    found.max((UNIT * (rest - paid) + (left - 1)) / left)
}

// The rate of a term, rounded down.
fn rate_of(period: u16, cost: u16) -> u64
    requires some { 1 ≤ period }
    ensures { result ≡ unit * cost / period }
{
    UNIT * cost as u64 / period as u64
}

impl Jump<'_> {
    // One term is taken at its rate.
    fn take(&self, taken: Taken, period: u16, cost: u16) -> Taken
        requires some { 1 ≤ period }
        requires enough { up self.now.trial period * cost ≤ taken.rest }
        requires slow { taken.rate ≤ 1152921504606846976 }
        ensures rest { result.rest + up self.now.trial period * cost ≡ taken.rest }
        ensures rate { result.rate ≤ taken.rate + 1099494850560 }
        ensures backup { result.backup ≡ taken.backup }
        ensures passed { Taking self.now.paid self.now.trial (λ L. up L period * cost) taken result }
    {
        let rate = taken.rate + rate_of(period, cost);
        let rest = taken.rest - load::times(period, cost, self.trial as u32) as u64;
        Taken {
            rate,
            rest,
            found: further(taken.found, rate, rest, self.paid),
            backup: taken.backup,
        }
    }

    // The faults are taken before a term whose period is at least their interval, unless they are taken already.
    fn take_faults(&self, taken: Taken, period: u16) -> Taken
        requires enough { struck_of self.now.tasks.frame taken self.now.trial ≤ taken.rest }
        requires slow { taken.rate ≤ 1152921504606846976 }
        ensures rest { result.rest + struck_of self.now.tasks.frame taken self.now.trial ≡ taken.rest + struck_of self.now.tasks.frame result self.now.trial }
        ensures rate { result.rate ≤ taken.rate + 1099494850560 }
        ensures passed { TakingFaults self.now.tasks.frame self.now.paid self.now.trial taken result }
    {
        let interval = self.tasks.frame.interval;
        if taken.backup == 0 {
            return taken;
        }
        if period < interval {
            return taken;
        }
        let untaken = Taken {
            rate: taken.rate,
            rest: taken.rest,
            found: taken.found,
            backup: 0,
        };
        self.take(untaken, interval, taken.backup)
    }

    // The term of the task at a rank is taken, and before it the faults where their interval is no longer than its period.
    fn take_rank(&self, taken: Taken, rank: usize) -> Taken
        requires below { rank < self.now.tasks.frame.count }
        requires enough { run_of self.now.tasks.columns.now rank self.now.trial + struck_of self.now.tasks.frame taken self.now.trial ≤ taken.rest }
        requires slow { taken.rate ≤ 1099511627776000 }
        ensures rest { result.rest + (run_of self.now.tasks.columns.now rank self.now.trial + struck_of self.now.tasks.frame taken self.now.trial) ≡ taken.rest + struck_of self.now.tasks.frame result self.now.trial }
        ensures rate { result.rate ≤ taken.rate + 2198989701120 }
        ensures passed { TakingBoth self.now.tasks.frame self.now.paid self.now.trial (run_of self.now.tasks.columns.now rank) taken result }
    {
        let period = self.tasks.columns[8 + rank];
        let cost = self.tasks.columns[rank];
        self.take(self.take_faults(taken, period), period, cost)
    }

    // The terms of the tasks from one rank on and before another are taken, and the faults among them.
    fn take_runs(&self, start: Taken, from: usize, until: usize) -> Taken
        requires here { until ≤ self.now.tasks.frame.count }
        requires enough { runs_of (tasks_in self.now.tasks) from until self.now.trial + struck_of self.now.tasks.frame start self.now.trial ≤ start.rest }
        requires slow { start.rate ≤ 109951162777600 }
        ensures rest { result.rest + (runs_of (tasks_in self.now.tasks) from until self.now.trial + struck_of self.now.tasks.frame start self.now.trial) ≡ start.rest + struck_of self.now.tasks.frame result self.now.trial }
        ensures rate { result.rate ≤ start.rate + 17591917608960 }
        ensures passed { TakingBoth self.now.tasks.frame self.now.paid self.now.trial (runs_of (tasks_in self.now.tasks) from until) start result }
    {
        let mut taken = start;
        for rank in from..until {
            taken = self.take_rank(taken, rank);
        }
        taken
    }
}

impl Search<'_> {
    // From a trial that is too short, a length that no shorter one from the trial on can meet: what the trial asks, or more.
    pub fn jump(&self, trial: u64, asked: u64) -> u64
        requires some { 1 ≤ trial }
        requires short { trial < 65536 }
        requires asked { asked ≡ asked_in self.now trial }
        requires small { asked + self.now.paid ≤ 111666790418 }
        ensures past { asked ≤ result }
        ensures short { Missed (asked_in self.now) trial result }
    {
        let frame = self.tasks.frame;
        let jump = Jump {
            tasks: self.tasks,
            paid: self.paid as u64,
            trial,
        };
        let nothing = Taken {
            rate: 0,
            rest: asked + self.paid as u64,
            found: 0,
            backup: self.backup,
        };
        let shared = jump.take(nothing, frame.round, frame.round - frame.share);
        let above = jump.take_runs(shared, 0, self.rank);
        let between = jump.take_runs(above, self.rank + 1, self.until);
        let all = jump.take_faults(between, 65535);
        asked.max(all.found)
    }
}
