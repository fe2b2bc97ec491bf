// `judge`: what document 01 says of each sheet, its times and then its choices, with the tasks' names where a text has them.
use console::judging;
use sources::titles::Named;
use sources::{inputs, taking};
use std::io::{Error, Print};
use streams::endings::Ending;
use streams::words::Asked;
use streams::{endings, input, words};

// Judges the sheet that an argument names.
fn judge(rt: HostRuntime, asked: Asked, place: usize) -> Ending {
    let Some(taken) = taking::table(rt, asked, place) else {
        return Ending::Trouble;
    };
    let tasks = taken.tasks;
    let named = Named { tasks };
    judging::answer(rt, taken.table, asked.is_explained, &named)
}

// Prints the name of a sheet over its answer.
fn head(rt: HostRuntime, place: usize) -> Result<(), Error> {
    let mut buffer = io::buffer();
    let name = input::name(rt, place, &mut buffer);
    let output = rt.stdout();
    Print::write_all(&output, b"sheet ")?;
    Print::write_all(&output, name)?;
    Print::write_all(&output, b"\n")
}

// Judges one of several sheets under its name.
fn judge_headed(rt: HostRuntime, asked: Asked, place: usize) -> Ending {
    match head(rt, place) {
        Ok(()) => judge(rt, asked, place),
        Err(error) => endings::failed(error),
    }
}

// Whether more than one of so many words names standard input.
fn is_standard_twice(rt: HostRuntime, asked: Asked, count: u8) -> bool {
    let mut named = (0..count).filter(|which| input::is_standard_at(rt, words::at(asked, *which)));
    named.nth(1).is_some()
}

// Judges each sheet that so many words name, and ends as the worst.
fn judge_each(rt: HostRuntime, asked: Asked, count: u8) -> Ending {
    let mut ending = Ending::Holds;
    for which in 0..count {
        ending = ending.max(judge_headed(rt, asked, words::at(asked, which)));
    }
    ending
}

// Judges the sheets that the words name, 255 at most, or standard input where there is none.
pub fn run(rt: HostRuntime, asked: Asked) -> Ending {
    if asked.count == 0 {
        return judge(rt, asked, 0);
    }
    if asked.count == 1 {
        return judge(rt, asked, words::at(asked, 0));
    }
    let Ok(count) = u8::try_from(asked.count) else {
        return words::trouble(b"judge takes 255 SHEETs at a time");
    };
    if is_standard_twice(rt, asked, count) {
        return words::standard_input_twice();
    }
    judge_each(rt, asked, count)
}

// Judges what the words name where the first is no command: one sheet, or several that begin with a text.
pub fn run_named(rt: HostRuntime, asked: Asked) -> Ending {
    if asked.count <= 1 || inputs::is_text(rt, asked, words::at(asked, 0)) {
        return run(rt, asked);
    }
    words::trouble(
        b"without the word judge there is one SHEET at a time, and the first word is no other command",
    )
}
