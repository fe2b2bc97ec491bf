// Replay of the box's log: the machine tick by tick, the rules that a log is judged by, and the seven counts; and whether a supplier's
// record shows what the machine does; both whole, or in pieces of any length.
// Every call answers any bytes and any machine; a refusal gives its number, and zeros beside it.
#![tactic(auto)]

ghost use Rattle.std.specs.Prelude.{◌≡◌};
ghost use Rattle.replay.specs.Ticks.Machines.{counts_of};
ghost use Rattle.replay.specs.Logs.Answers.{start_answer, go_on_answer, replay_answer, check_answer};
ghost use Rattle.replay.specs.Logs.Pieces.{before_log, before_record, taken_answer, replayed_answer, checked_answer};

use crate::logs::pieces;
use crate::ticks::{counting, ticking};
use sheet::Record;

mod logs;
mod ticks;

// The cell of a slot: whether its job is a backup, the ticks of work that the job has left (0: there is no job), the ticks until its
// deadline, and the ticks until the next legal release.
#[derive(Clone, Copy)]
pub struct Cell {
    pub is_backup: bool,
    pub left: u16,
    pub rest: u16,
    pub wait: u16,
}

// What the ticks so far come to.
#[derive(Clone, Copy)]
pub struct Tally {
    pub first_attempts: u64,
    pub backups: u64,
    pub idle: u64,
    pub released: u64,
    pub finished: u64,
    pub missed: u64,
}

// The seven counts: ticks of first attempts, backups and idling; jobs released, finished, missed and unfinished.
#[derive(Clone, Copy)]
pub struct Counts {
    pub first_attempts: u64,
    pub backups: u64,
    pub idle: u64,
    pub released: u64,
    pub finished: u64,
    pub missed: u64,
    pub unfinished: u64,
}

// The machine between two ticks: the count of tasks, the fault interval, the tasks by priority (slot k is priority k + 1), the cells of
// the slots, the priorities of their ready jobs as bits (priority 8 the most significant), the ticks until the next legal fault, and what the
// ticks so far come to. A call that runs ticks goes by the jobs, whatever priorities it is handed.
#[derive(Clone, Copy)]
pub struct Machine {
    pub count: u8,
    pub interval: u16,
    pub tasks: [Record; 8],
    pub cells: [Cell; 8],
    pub ready: u8,
    pub gap: u16,
    pub tally: Tally,
}

// What `start` and `go_on` answer: the refusal, or 0 beside the machine.
#[derive(Clone, Copy)]
pub struct Run {
    pub refusal: u8,
    pub machine: Machine,
}

// What `replay` answers: the refusal, or 0 beside the counts.
#[derive(Clone, Copy)]
pub struct Replayed {
    pub refusal: u8,
    pub counts: Counts,
}

// What `check` answers: refused with the number, accepted, or the first tick, from 0, that differs.
#[derive(Clone, Copy)]
pub enum Checked {
    Refused(u8),
    Accepted,
    Differs(u64),
}

// A log or a supplier's record of which any number of bytes have been taken: whether it is a record; the sheet's refusal, and the first
// that a tick was refused for, or 0; the machine after the ticks that were run; how many ticks showed what they must before one that
// did not, and whether there was one; and how many bytes of an unfinished tick are held, with its releases and its faults.
#[derive(Clone, Copy)]
pub struct Following {
    pub is_record: bool,
    pub start: u8,
    pub broken: u8,
    pub machine: Machine,
    pub same: u64,
    pub differs: bool,
    pub holds: u8,
    pub releases: u8,
    pub faults: u8,
}

impl Machine {
    // The machine of a good whole-processor sheet before the first tick.
    pub fn start(sheet: &[u8]) -> Run
        ensures { result ≡ start_answer sheet.now }
    {
        match sheet::read_whole(sheet) {
            Ok(table) => Run {
                refusal: 0,
                machine: ticking::machine_of(table),
            },
            Err(refusal) => Run {
                refusal: refusal.number(),
                machine: ticking::no_machine(),
            },
        }
    }

    // The machine after a further part of a log.
    pub fn go_on(self, part: &[u8]) -> Run
        ensures { result ≡ go_on_answer self part.now }
    {
        if part.len() % 2 != 0 {
            return Run {
                refusal: 14,
                machine: ticking::no_machine(),
            };
        }
        pieces::log_over(ticking::tied(self), part)
    }

    // The seven counts of the ticks so far.
    pub fn counts(self) -> Counts
        ensures { result ≡ counts_of self }
    {
        let tally = self.tally;
        let cells = self.cells;
        counting::counts_of(tally, counting::unfinished(cells))
    }
}

// The counts of a whole log.
pub fn replay(sheet: &[u8], log: &[u8]) -> Replayed
    ensures { result ≡ replay_answer sheet.now log.now }
{
    Following::log(sheet).take(log).replayed()
}

// Whether each tick of a supplier's record shows what ran.
pub fn check(sheet: &[u8], supplied: &[u8]) -> Checked
    ensures { result ≡ check_answer sheet.now supplied.now }
{
    Following::record(sheet).take(supplied).checked()
}

impl Following {
    // A sheet's log before its first byte.
    pub fn log(sheet: &[u8]) -> Following
        ensures { result ≡ before_log sheet.now }
    {
        pieces::before_bytes(false, Machine::start(sheet))
    }

    // A sheet's record before its first byte.
    pub fn record(sheet: &[u8]) -> Following
        ensures { result ≡ before_record sheet.now }
    {
        pieces::before_bytes(true, Machine::start(sheet))
    }

    // After a further piece, of any length.
    pub fn take(self, part: &[u8]) -> Following
        ensures { result ≡ taken_answer self part.now }
    {
        let mut following = pieces::tied(self);
        let mut at: usize = 0;
        while at < part.len() {
            let next = at
                + pieces::next_bytes(following.is_record, following.holds, part.len() - at);
            following = pieces::go_on(following, &part[at..next]);
            at = next;
        }
        following
    }

    // What `replay` answers of the bytes so far.
    pub fn replayed(self) -> Replayed
        ensures { result ≡ replayed_answer self }
    {
        let refusal = pieces::refusal_at(self.start, self.holds, self.broken);
        if refusal != 0 {
            let none = ticking::no_machine();
            return Replayed {
                refusal,
                counts: none.counts(),
            };
        }
        let machine = self.machine;
        Replayed {
            refusal: 0,
            counts: machine.counts(),
        }
    }

    // What `check` answers of the bytes so far.
    pub fn checked(self) -> Checked
        ensures { result ≡ checked_answer self }
    {
        let refusal = pieces::refusal_at(self.start, self.holds, self.broken);
        if refusal != 0 {
            return Checked::Refused(refusal);
        }
        if self.differs {
            return Checked::Differs(self.same);
        }
        Checked::Accepted
    }
}
