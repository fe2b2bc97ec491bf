// The words that the program is given: where those of a command begin, how many there are, and what is said where they are wrong.
ghost use Rattle.std.specs.Prelude.{◌≡◌, length};
ghost use Rattle.io.specs.Counts.{IsPrefixLen};
ghost use Rattle.streams.specs.Endings.{word_place};

use crate::descriptors::STDERR_FILENO;
use crate::endings::Ending;
use crate::parts;
use std::env::{Env, FillError};

// How a text is read: whether every sheet is one, whatever its name, whether nothing is said of it on standard error, and its scale.
#[derive(Clone, Copy)]
pub struct Options {
    pub is_text: bool,
    pub is_quiet: bool,
    pub scale: u64,
}

// Where nothing is asked for: a text is one by its name, is told of, and is not scaled.
pub const NO_OPTIONS: Options = Options {
    is_text: false,
    is_quiet: false,
    scale: 1,
};

// What the program was asked for beside the command: the place of the first word after it among the arguments, how many words
// follow, whether a refusal is to be told in words, and how a text is read.
#[derive(Clone, Copy)]
pub struct Asked {
    pub first: u16,
    pub count: usize,
    pub is_explained: bool,
    pub options: Options,
}

// The argument at a place, at the start of a buffer: none of its bytes where there is none or it has no room.
pub fn put(rt: HostRuntime, place: usize, buffer: &mut [u8]) -> &[u8]
    ensures { IsPrefixLen (length result.now) buffer.old }
{
    let length = rt.arg(place, buffer).unwrap_or(0);
    &buffer[..parts::part(length, buffer)]
}

// Whether there is an argument at a place.
fn is_given(rt: HostRuntime, place: usize) -> bool {
    !matches!(rt.arg(place, &mut [0u8; 1]), Err(FillError::NotPresent))
}

// How many arguments there are from a place on.
fn count_from(rt: HostRuntime, first: u16) -> usize {
    (first as usize..usize::MAX)
        .position(|place| !is_given(rt, place))
        .unwrap_or(usize::MAX)
}

// What was asked for from a place on, with no options.
pub fn asked_from(rt: HostRuntime, first: u16, is_explained: bool) -> Asked {
    asked_with(rt, first, is_explained, NO_OPTIONS)
}

// The same with options.
pub fn asked_with(rt: HostRuntime, first: u16, is_explained: bool, options: Options) -> Asked {
    Asked {
        first,
        count: count_from(rt, first),
        is_explained,
        options,
    }
}

// The place of a word among the arguments.
pub fn at(asked: Asked, which: u8) -> usize
    ensures { result ≡ word_place asked which }
{
    asked.first as usize + which as usize
}

// Says what is wrong with the words.
pub fn trouble(what: &[u8]) -> Ending {
    io::write_all(STDERR_FILENO, b"desk: ");
    io::write_all(STDERR_FILENO, what);
    io::write_all(STDERR_FILENO, b"; ./desk help says more\n");
    Ending::Trouble
}

// Says that standard input can be read once only.
pub fn standard_input_twice() -> Ending {
    trouble(b"standard input, -, can be read once only")
}
