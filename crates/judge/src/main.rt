// Document 01's program: one sheet, its times and then its choices.
// Its first argument may ask for more, as the desk's may: `status` for how it ended, as a digit on descriptor 3, and `explain` for that and
// for a refusal in words on standard error.
#![tactic(auto)]

use console::judging;
use streams::endings::Ending;
use streams::{endings, words};

// Whether the argument at a place is the word `judge`.
fn is_command(rt: HostRuntime, place: u16) -> bool {
    let mut buffer = io::buffer();
    matches!(words::put(rt, place as usize, &mut buffer), b"judge")
}

// Judges the sheet that the argument at a place names, after the word `judge` or without it.
fn run(rt: HostRuntime, place: u8, is_explained: bool) -> Ending {
    let word = u16::from(place);
    let first = if is_command(rt, word) { word + 1 } else { word };
    judging::run(rt, words::asked_from(rt, first, is_explained))
}

fn main(rt: HostRuntime) {
    let word = endings::asked(rt);
    endings::tell(
        word,
        run(rt, endings::first(word), word == endings::EXPLAIN),
    );
}
