// Whether a choice stays within bounds, which takes comparisons only. What is read is lent, so that no choice costs a copy of the bounds.
ghost use Rattle.std.specs.Prelude.{◌≡◌, cond, ℕ, ◌≤◌, ◌<◌, max, ltb, leb, length, get_or};
ghost use Rattle.places.specs.Answered.{answered};
ghost use Rattle.analysis.specs.Common.Backups.{others};
ghost use Rattle.analysis.specs.Bounds.Within.{largest_of, TopsOf, below_limits, within_bounds, bounds_refusal};
ghost use Rattle.analysis.specs.Bounds.Lent.{weighed_in};

use crate::Rule;
use crate::bounding::weighed::{Topped, Weighed};
use crate::common::load;
use places::refusal::Refusal;

// Puts a backup in the tops at every priority up to its fault priority.
fn put_in(fault: u8, backup: u16, tops: &mut [u16; 9])
    requires room { length tops.old ≡ 9 }
    ensures room { length tops.new ≡ 9 }
    ensures raised { (priority : ℕ) → priority < 9 → get_or tops.new priority 0 ≡ max (get_or tops.old priority 0) (cond (leb priority fault) backup 0) }
{
    for priority in 0..9 {
        if (fault as usize) < priority {
            return;
        }
        tops[priority] = tops[priority].max(backup);
    }
}

impl Weighed<'_> {
    // The tops of the choice.
    fn tops(&self) -> [u16; 9]
        ensures { TopsOf self.now.backups.now self.now.choice.now self.now.count result }
    {
        let mut tops = [0u16; 9];
        for place in 0..self.count as usize {
            put_in(self.choice[place], self.backups[place], &mut tops);
        }
        tops
    }

    // The largest backup at or above a priority among the records but one.
    fn largest_other(&self, place: usize, priority: u8) -> u16
        ensures { result ≡ largest_of self.now.backups.now self.now.choice.now (others place) priority self.now.count }
    {
        load::most(self.count as usize, |other| {
            let meant = (other != place) & (priority <= self.choice[other]);
            load::counted(meant, self.backups[other])
        })
    }

    // Whether each record is within its limits under a rule.
    pub fn within(&self, rule: Rule) -> bool
        ensures { result ≡ within_bounds rule (weighed_in self.now) self.now.choice.now }
    {
        let tops = self.tops();
        let topped = Topped {
            weighed: *self,
            tops: &tops,
        };
        for place in 0..self.count as usize {
            if 8 < self.choice[place] {
                return false;
            }
            if !topped.is_below(place, rule) {
                return false;
            }
        }
        true
    }
}

impl Topped<'_> {
    // Whether M of the record at a place is below a limit. The top at its priority is no smaller, and often small enough.
    fn is_elsewhere_below(&self, place: usize, priority: u8, limit: u32) -> bool
        ensures { result ≡ ltb (largest_of self.now.weighed.backups.now self.now.weighed.choice.now (others place) priority self.now.weighed.count) limit }
    {
        if priority <= 8 {
            if u32::from(self.tops[priority as usize]) < limit {
                return true;
            }
        }
        u32::from(self.weighed.largest_other(place, priority)) < limit
    }

    // Whether the record at a place is below its limits under a rule. By the published equations the top at its fault priority is its N; for the assured times N is no larger than that.
    fn is_below(&self, place: usize, rule: Rule) -> bool
        requires here { place < self.now.weighed.count }
        requires narrow { get_or self.now.weighed.choice.now place 0 ≤ 8 }
        ensures { result ≡ below_limits rule (weighed_in self.now.weighed) self.now.weighed.choice.now place }
    {
        let weighed = self.weighed;
        let fault = weighed.choice[place] as usize;
        let limit = weighed.limits[9 * place + fault];
        let under = u32::from(self.tops[fault]) < limit;
        match rule {
            Rule::Published => {
                let elsewhere = weighed.limits[9 * place];
                under && self.is_elsewhere_below(place, weighed.priorities[place], elsewhere)
            }
            Rule::Assured => under || u32::from(weighed.largest_ahead(place)) < limit,
        }
    }
}

// Bounds of no record, and of more than eight, are refused.
pub fn judge(count: u8) -> Result<(), Refusal>
    ensures { result ≡ answered (bounds_refusal 0 count) tt }
{
    if (count == 0) | (8 < count) {
        Err(Refusal::BadCount)
    } else {
        Ok(())
    }
}
