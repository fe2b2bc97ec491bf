// The choices within bounds, one after another.
ghost use Rattle.std.specs.Prelude.{◌≡◌, true, ◌||◌, ◌≤◌, length};
ghost use Rattle.std.specs.Iterator.{YieldsFirst, item_count};
ghost use Rattle.analysis.specs.Common.Allowed.{all_allowed};
ghost use Rattle.choices.specs.Order.{all_zero, after_of};
ghost use Rattle.choices.specs.Stepping.{factorial, within_of, Levels};

use crate::odometer;
use analysis::{Bounds, Rule};

// The choices that stay within bounds under a rule, those after the one that it stands at. The bounds are those of a good table that some choice of it can meet; they are lent, so that no choice costs a copy of them.
#[derive(Clone, Copy)]
pub struct Within<'a> {
    pub bounds: &'a Bounds,
    pub rule: Rule,
    pub choice: [u8; 8],
    ghost few: { bounds.now.count ≤ 8 },
    ghost levels: { Levels bounds.now.priorities },
    ghost most: { length (within_of rule bounds.now) ≤ factorial bounds.now.count },
    ghost started: { (all_zero choice || all_allowed bounds.now.priorities choice) ≡ true },
}

impl Iterator for Within<'_> {
    type Item = [u8; 8];

    ghost next_gives = { YieldsFirst (λ s. after_of s.choice (within_of s.rule s.bounds.now)) };

    ghost remaining = { item_count (λ s. after_of s.choice (within_of s.rule s.bounds.now)) };

    fn next(&mut self) -> Option<[u8; 8]> {
        let choice = odometer::go_on(self.bounds, self.rule, self.choice)?;
        self.choice = choice;
        Some(choice)
    }
}
