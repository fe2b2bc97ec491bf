// A log or a supplier's record read in pieces of one buffer, whatever its length, with a word on standard error every few seconds where
// that is a terminal.
use replay::Following;
use std::io::{Error, IsTerminal};
use std::time::{SystemTime, UNIX_EPOCH};
use streams::descriptors::STDERR_FILENO;
use streams::input;
use streams::input::{Opened, Takes};

// How many seconds pass from one word on the way to the next.
const SECONDS: u64 = 5;

// How far the reading is: the bytes read, the second of the last word, and whether there are words at all.
#[derive(Clone, Copy)]
struct Way {
    bytes: u64,
    told: u64,
    is_told: bool,
}

// The seconds from the clock's beginning to a time, or 0 where it is before that.
fn seconds_to(now: SystemTime) -> u64 {
    match now.duration_since(UNIX_EPOCH) {
        Ok(passed) => passed.as_secs(),
        Err(_) => 0,
    }
}

// The seconds of the clock.
fn seconds(rt: HostRuntime) -> u64 {
    match SystemTime::now(&rt) {
        Ok(now) => seconds_to(now),
        Err(_) => 0,
    }
}

// Says how much was read.
fn say(bytes: u64) {
    io::write_all(STDERR_FILENO, b"desk: ");
    io::print_decimal(STDERR_FILENO, bytes / 1048576);
    io::write_all(STDERR_FILENO, b" MiB read\n");
}

impl Way {
    // The way before the first byte.
    fn start(rt: HostRuntime) -> Way {
        Way {
            bytes: 0,
            told: seconds(rt),
            is_told: rt.stderr().is_terminal(),
        }
    }

    // Goes on by so many bytes, and tells it where it is time to.
    fn go_on(&mut self, rt: HostRuntime, more: usize) {
        self.bytes = self.bytes.wrapping_add(more as u64);
        let now = seconds(rt);
        if self.is_told && SECONDS <= now.wrapping_sub(self.told) {
            say(self.bytes);
            self.told = now;
        }
    }
}

// An input that is being followed, and how far.
#[derive(Clone, Copy)]
struct OnTheWay {
    rt: HostRuntime,
    following: Following,
    way: Way,
}

impl Takes for OnTheWay {
    fn take(&mut self, part: &[u8]) {
        self.following = self.following.take(part);
        self.way.go_on(self.rt, part.len());
    }
}

// Takes every piece of an opened input.
fn take(rt: HostRuntime, opened: &mut Opened, start: Following) -> Result<Following, Error> {
    let mut on_the_way = OnTheWay {
        rt,
        following: start,
        way: Way::start(rt),
    };
    input::read_parts(opened, &mut on_the_way)?;
    Ok(on_the_way.following)
}

// Takes the whole of the input that an argument names, or says why it could not be read.
pub fn read(rt: HostRuntime, place: usize, following: Following) -> Option<Following> {
    let mut buffer = io::buffer();
    let name = input::name(rt, place, &mut buffer);
    let mut opened = input::open(rt, name)?;
    let taken = take(rt, &mut opened, following);
    input::close(opened);
    input::told(taken, name)
}
