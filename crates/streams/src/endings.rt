// How a command ends, in the statuses of the run command, and how the program is asked for it.
ghost use Rattle.std.specs.Prelude.{◌≡◌};
ghost use Rattle.streams.specs.Endings.{first_place, ends_in, status_of};

use crate::descriptors::STATUS_FILENO;
use crate::{reasons, words};
use std::io::{Error, ErrorKind};

// How a command ends, the better first: the sheet passes, the record is accepted, nothing is missed, what was looked for is found; some task
// is late, the record differs, a job is missed, there is none; something is refused, or could not be read or written; nobody reads standard
// output any more.
#[derive(Clone, Copy, PartialEq, Eq, PartialOrd, Ord)]
pub enum Ending {
    Holds,
    Fails,
    Trouble,
    Unread,
}

impl From<Ending> for u8 {
    ghost from_gives = { λ ending status. status ≡ status_of ending };

    fn from(ending: Ending) -> u8 {
        match ending {
            Ending::Holds => 0,
            Ending::Fails => 1,
            Ending::Trouble => 2,
            Ending::Unread => 3,
        }
    }
}

// The first argument: none that is known, `status`, `explain`. These stay numbers: `first` promises its place of every one (`first-unique`).
pub const NOTHING: u8 = 0;

pub const STATUS: u8 = 1;

pub const EXPLAIN: u8 = 2;

// What the first argument asks for.
pub fn asked(rt: HostRuntime) -> u8 {
    let mut buffer = [0u8; 16];
    match words::put(rt, 1, &mut buffer) {
        b"explain" => EXPLAIN,
        b"status" => STATUS,
        _ => NOTHING,
    }
}

// The place of the first argument after that.
#[tactic(auto, unfolding(crate::specs::Endings::first_place))]
pub fn first(word: u8) -> u8
    ensures { result ≡ first_place word }
{
    if word == NOTHING { 1 } else { 2 }
}

// How a command ends by what it asks.
#[tactic(auto, unfolding(crate::specs::Endings::ends_in))]
pub fn of(holds: bool) -> Ending
    ensures { status_of result ≡ ends_in holds }
{
    if holds { Ending::Holds } else { Ending::Fails }
}

// Tells how the command ended, if that was asked for.
pub fn tell(word: u8, ending: Ending) {
    if word != NOTHING {
        io::print_decimal(STATUS_FILENO, u64::from(u8::from(ending)));
    }
}

// Says why the answer could not be written, but where nobody reads it: then the run command ends as a program does that the system ends for it.
pub fn failed(error: Error) -> Ending {
    if error.kind() == ErrorKind::BrokenPipe {
        return Ending::Unread;
    }
    reasons::say(b"standard output", &error);
    Ending::Trouble
}

// How a command ends whose lines were written, or not.
pub fn ended(written: Result<(), Error>, ending: Ending) -> Ending {
    match written {
        Ok(()) => ending,
        Err(error) => failed(error),
    }
}
