// What a demand asks of a length: rounding up, the runs of the tasks, the supplier's part, and the largest backup at or above a priority.
// The tasks stand in columns by rank, from the highest priority to the lowest, so that those above a task stand before it.
ghost use Rattle.std.specs.Prelude.{◌≡◌, cond, ℕ, ◌+◌, ◌≤◌, ◌<◌, ◌*◌};
ghost use Rattle.places.specs.Places.{most_below};
ghost use Rattle.analysis.specs.Common.Rounding.{up};
ghost use Rattle.analysis.specs.Common.Supplier.{supplier_of};
ghost use Rattle.analysis.specs.Common.Demand.{largest_before, runs_of, load_of};
ghost use Rattle.analysis.specs.Common.Lent.{tasks_in, chosen_in, demand_in, asked_in};

use crate::common::search::Search;
use crate::common::tasks::{Chosen, Ordered};

// A number of 16 bits as one of 64, which is known to be below 65,536: `u64::from` does not say so.
pub fn wide(x: u16) -> u64
    ensures same { result ≡ x }
    ensures small { result < 65536 }
{
    x as u64
}

// The same as one of 32: what is divided and multiplied stays within 32 bits, where a division is cheaper.
pub fn half_wide(x: u16) -> u32
    ensures same { result ≡ x }
    ensures small { result < 65536 }
{
    x as u32
}

// a divided by b, rounded up: the quotient, and one more if a remainder is left.
fn up(a: u32, b: u32) -> u32
    requires short { a < 65536 }
    requires some { 1 ≤ b }
    requires small { b < 65536 }
    ensures same { result ≡ up a b }
    ensures small { result < 65536 }
{
    let quotient = a / b;
    if a % b == 0 {
        return quotient;
    }
    quotient + 1
}

// The time that a task runs in a length: its cost for each period begun.
pub fn times(period: u16, cost: u16, length: u32) -> u32
    requires some { 1 ≤ period }
    requires short { length < 65536 }
    ensures same { result ≡ up length period * cost }
    ensures small { result ≤ 4294836225 }
{
    up(length, half_wide(period)) * half_wide(cost)
}

// A backup that counts, else 0.
pub fn counted(is_counted: bool, backup: u16) -> u16
    ensures { result ≡ cond is_counted backup 0 }
{
    if is_counted { backup } else { 0 }
}

// The largest of what is given for each number below one, or 0.
pub fn most<F: Fn(usize) -> u16>(until: usize, each: F) -> u16
    requires { (k : ℕ) → k < until → F.pre each k }
    ensures { (given : ℕ → ℕ) → ((k r : ℕ) → k < until → F.post each k r → r ≡ given k) → result ≡ most_below given until }
{
    let mut most: u16 = 0;
    for k in 0..until {
        most = most.max(each(k));
    }
    most
}

// What the supplier takes of a length: as a task above all others would, whose period is the round and whose cost is what is left of it beside our share.
fn supplier(round: u16, share: u16, length: u32) -> u32
    requires some { 1 ≤ round }
    requires within { share ≤ round }
    requires short { length < 65536 }
    ensures same { result ≡ supplier_of round share length }
    ensures small { result ≤ 4294836225 }
{
    times(round, round - share, length)
}

impl Chosen<'_> {
    // The largest backup at or above a priority among the tasks before a rank.
    pub fn largest(&self, until: usize, priority: u8) -> u16
        requires { until ≤ self.now.tasks.frame.count }
        ensures { result ≡ largest_before (chosen_in self.now) until priority }
    {
        most(until, |rank| {
            counted(priority <= self.faults[rank], self.tasks.columns[16 + rank])
        })
    }
}

impl Ordered<'_> {
    // The time that the tasks from one rank on and before another run in a length.
    fn runs(&self, from: usize, until: usize, length: u32) -> u64
        requires here { until ≤ self.now.frame.count }
        requires short { length < 65536 }
        ensures same { result ≡ runs_of (tasks_in self.now) from until length }
        ensures small { result ≤ 34358689800 }
    {
        let mut total: u64 = 0;
        for rank in from..until {
            total += times(self.columns[8 + rank], self.columns[rank], length) as u64;
        }
        total
    }

    // The costs of the tasks from one rank on and before another: the time that they run in a length of 1.
    pub fn once(&self, from: usize, until: usize) -> u64
        requires { until ≤ self.now.frame.count }
        ensures same { result ≡ runs_of (tasks_in self.now) from until 1 }
        ensures small { result ≤ 524280 }
    {
        let mut total: u64 = 0;
        for rank in from..until {
            total += wide(self.columns[rank]);
        }
        total
    }
}

impl Search<'_> {
    // What a length is asked by the tasks before the demand's rank and by those after it, by the faults and by the supplier.
    fn load(&self, length: u64) -> u64
        requires { length < 65536 }
        ensures same { result ≡ load_of (tasks_in self.now.tasks) (demand_in self.now) length }
        ensures small { result ≤ 77307052050 }
    {
        let span = length as u32;
        let frame = self.tasks.frame;
        let faults = times(frame.interval, self.backup, span);
        let shared = supplier(frame.round, frame.share, span);
        let above = self.tasks.runs(0, self.rank, span);
        let between = self.tasks.runs(self.rank + 1, self.until, span);
        above + between + faults as u64 + shared as u64
    }

    // What a length that is not 0 is asked, in which what is already paid has been asked.
    pub fn asked(&self, length: u64) -> u64
        requires some { 1 ≤ length }
        requires short { length < 65536 }
        ensures same { result ≡ asked_in self.now length }
        ensures small { result + self.now.paid ≤ 111666790418 }
    {
        self.base + self.load(length) - self.paid as u64
    }

    // What a length of 1 is asked.
    pub fn least_asked(&self) -> u64
        ensures same { result ≡ asked_in self.now 1 }
        ensures some { 1 ≤ result }
    {
        let frame = self.tasks.frame;
        let above = self.tasks.once(0, self.rank);
        let between = self.tasks.once(self.rank + 1, self.until);
        let shared = wide(frame.round - frame.share);
        self.base + above + between + self.backup as u64 + shared - self.paid as u64
    }
}
