// Inputs: a file that is opened by its name, or standard input, whose name is `-`. End, data and error are told apart. A read that a
// signal cut off is tried again, and any other error is one.
// A proved loop has to end, so where no buffer fills the turns are counted, up to a number that no input uses up.
ghost use Rattle.std.specs.Prelude.{◌≡◌, length};
ghost use Rattle.io.specs.Counts.{IsPrefixLen};
ghost use Rattle.std.specs.Io.{ReadsAtMost};
ghost use Rattle.streams.specs.Inputs.{is_dash};

use crate::descriptors::STDERR_FILENO;
use crate::{parts, reasons, words};
use std::fs::File;
use std::io::{Error, ErrorKind, IsTerminal, Read, Stdin};

// What takes the pieces of an input, one after another.
pub trait Takes {
    fn take(&mut self, part: &[u8]);
}

// What drops them.
#[derive(Clone, Copy)]
struct Dropping;

impl Takes for Dropping {
    fn take(&mut self, _part: &[u8]) {}
}

// An input that is open.
#[derive(Drop)]
pub enum Opened {
    Standard(Stdin),
    Named(File),
}

// The argument at a place, at the start of a buffer, or `-` for the argument that is none, at place 0.
pub fn name(rt: HostRuntime, place: usize, buffer: &mut [u8]) -> &[u8]
    ensures { IsPrefixLen (length result.now) buffer.old }
{
    if place != 0 {
        return words::put(rt, place, buffer);
    }
    let length = parts::part(1, buffer);
    buffer[..length].fill(b'-');
    &buffer[..length]
}

// Whether a name is that of standard input, or of standard output.
pub fn is_standard(name: &[u8]) -> bool
    ensures { result ≡ is_dash name.now }
{
    name == b"-".as_slice()
}

// Says why a call failed, of an input's name.
pub fn say_why(name: &[u8], error: Error) {
    let what = if is_standard(name) {
        b"standard input"
    } else {
        name
    };
    reasons::say(what, &error);
}

// What a call gave, or none where it failed, of an input's name, and it is said why.
pub fn told<T: Drop>(given: Result<T, Error>, name: &[u8]) -> Option<T> {
    match given {
        Ok(value) => Some(value),
        Err(error) => {
            say_why(name, error);
            None
        }
    }
}

// A name as a path, which is text.
pub fn path(name: &[u8]) -> Result<&str, Error> {
    str::from_utf8(name).map_err(|_| Error::from(ErrorKind::InvalidFilename))
}

// Opens a file for reading.
pub fn open_file(rt: HostRuntime, name: &[u8]) -> Result<File, Error> {
    File::open(&rt, path(name)?)
}

// Opens an input, or says why it cannot be.
pub fn open(rt: HostRuntime, name: &[u8]) -> Option<Opened> {
    if is_standard(name) {
        if rt.stdin().is_terminal() {
            io::write_all(
                STDERR_FILENO,
                b"desk: reading from standard input; Ctrl-D ends it\n",
            );
        }
        return Some(Opened::Standard(rt.stdin()));
    }
    let file = told(open_file(rt, name), name)?;
    Some(Opened::Named(file))
}

// Closes an input that was opened.
pub fn close(opened: Opened) {
    drop(opened);
}

// One read, which a signal may cut off.
fn read_once(opened: &mut Opened, buffer: &mut [u8]) -> Result<usize, Error>
    ensures { ReadsAtMost result buffer.new }
{
    match opened {
        Opened::Standard(input) => input.read(buffer),
        Opened::Named(file) => file.read(buffer),
    }
}

// One read, tried again for as long as signals cut it off.
pub fn read(opened: &mut Opened, buffer: &mut [u8]) -> Result<usize, Error>
    ensures { ReadsAtMost result buffer.new }
{
    for _ in 0..u64::MAX {
        match read_once(opened, buffer) {
            Ok(got) => return Ok(got),
            Err(error) => {
                if error.kind() != ErrorKind::Interrupted {
                    return Err(error);
                }
            }
        }
    }
    Err(Error::from(ErrorKind::Interrupted))
}

// Reads until the buffer is full, the input ends or a read fails: how many bytes there are, fewer than the buffer has places for where the
// input ended. The place is not counted by one: each read moves it by what it got.
pub fn fill(opened: &mut Opened, buffer: &mut [u8]) -> Result<usize, Error>
    ensures { ReadsAtMost result buffer.new }
{
    let mut held: usize = 0;
    while held < buffer.len() {
        let more = read(opened, &mut buffer[held..])?;
        if more == 0 {
            break;
        }
        held += more;
    }
    Ok(held)
}

// Reads an input to its end in pieces of one buffer, and hands each piece on.
pub fn read_parts<T: Takes>(opened: &mut Opened, taking: &mut T) -> Result<(), Error> {
    let mut buffer = io::large_buffer();
    for _ in 0..u64::MAX {
        let held = read(opened, &mut buffer)?;
        if held == 0 {
            return Ok(());
        }
        taking.take(&buffer[..held]);
    }
    Err(Error::from(ErrorKind::Interrupted))
}

// Reads the rest of an input and drops it.
pub fn read_to_its_end(opened: &mut Opened) -> Result<(), Error> {
    read_parts(opened, &mut Dropping)
}

// Whether a word is the name of standard input.
pub fn is_standard_at(rt: HostRuntime, place: usize) -> bool {
    let mut buffer = io::buffer();
    is_standard(name(rt, place, &mut buffer))
}

// Whether two words are both the name of standard input, which can be read once.
pub fn are_both_standard(rt: HostRuntime, first: usize, second: usize) -> bool {
    is_standard_at(rt, first) & is_standard_at(rt, second)
}
