// Bounds and a choice as they are lent, with the facts that comparing them relies on.
ghost use Rattle.std.specs.Prelude.{◌≤◌};
ghost use Rattle.analysis.specs.Bounds.Within.{TopsOf};

// Bounds of eight records at most, and a choice beside them.
#[derive(Clone, Copy)]
pub struct Weighed<'a> {
    pub priorities: &'a [u8; 8],
    pub backups: &'a [u16; 8],
    pub limits: &'a [u32; 72],
    pub choice: &'a [u8; 8],
    pub count: u8,
    ghost few: { count ≤ 8 },
}

// They and the tops of the choice: the largest backup at or above each priority.
#[derive(Clone, Copy)]
pub struct Topped<'a> {
    pub weighed: Weighed<'a>,
    pub tops: &'a [u16; 9],
    ghost topped: { TopsOf weighed.backups.now weighed.choice.now weighed.count tops.now },
}
