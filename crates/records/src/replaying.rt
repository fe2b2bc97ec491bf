// `replay`: the seven counts of a log. `check`: whether a supplier's record shows what the machine does.
use crate::following;
use console::{output, refusals};
use intake::sheets::Given;
use replay::{Checked, Counts, Following};
use report::{Name, Saying};
use sources::inputs;
use std::io::Error;
use streams::endings::Ending;
use streams::words::Asked;
use streams::{endings, input, words};

// Prints the seven counts.
fn print(rt: HostRuntime, counts: Counts) -> Result<(), Error> {
    let stream = rt.stdout();
    let mut page = output::EMPTY;
    for (name, count) in [
        (Name::Attempts, counts.first_attempts),
        (Name::Backups, counts.backups),
        (Name::Idle, counts.idle),
        (Name::Released, counts.released),
        (Name::Finished, counts.finished),
        (Name::Missed, counts.missed),
        (Name::Unfinished, counts.unfinished),
    ] {
        page.keep(&stream, report::named_line(name, count))?;
    }
    page.write(&stream)
}

// Answers a log that was read to its end.
fn answer_log(rt: HostRuntime, given: Given, following: Following, is_explained: bool) -> Ending {
    let replayed = following.replayed();
    if replayed.refusal != 0 {
        return refusals::print_of(rt, given, replayed.refusal, is_explained);
    }
    let counts = replayed.counts;
    endings::ended(print(rt, counts), endings::of(counts.missed == 0))
}

// Answers a record that was read to its end.
fn answer_record(
    rt: HostRuntime,
    given: Given,
    following: Following,
    is_explained: bool,
) -> Ending {
    match following.checked() {
        Checked::Refused(refusal) => refusals::print_of(rt, given, refusal, is_explained),
        Checked::Accepted => output::line(rt, report::saying_line(Saying::Accepted), Ending::Holds),
        Checked::Differs(tick) => {
            output::line(rt, report::named_line(Name::Differs, tick), Ending::Fails)
        }
    }
}

// Follows what the second word names, of the sheet that the first one does, from where it begins for that sheet, and answers it.
fn follow<B, A>(rt: HostRuntime, asked: Asked, begin: B, answer: A) -> Ending
where
    B: Fn(&[u8]) -> Following,
    A: Fn(HostRuntime, Given, Following, bool) -> Ending,
    requires begin { B.IsAlwaysCallable begin }
    requires answer { A.IsAlwaysCallable answer }
{
    if asked.count != 2 {
        return words::trouble(b"replay takes SHEET and LOG, and check takes SHEET and RECORD");
    }
    if input::are_both_standard(rt, words::at(asked, 0), words::at(asked, 1)) {
        return words::standard_input_twice();
    }
    let Some(source) = inputs::sheet_at(rt, asked, words::at(asked, 0)) else {
        return Ending::Trouble;
    };
    let given = source.given;
    match following::read(rt, words::at(asked, 1), begin(given.sheet())) {
        Some(following) => answer(rt, given, following, asked.is_explained),
        None => Ending::Trouble,
    }
}

// Replays the log that the second word names, of the sheet that the first one does.
pub fn replay(rt: HostRuntime, asked: Asked) -> Ending {
    follow(rt, asked, |sheet| Following::log(sheet), answer_log)
}

// Checks the record that the second word names, of the sheet that the first one does.
pub fn check(rt: HostRuntime, asked: Asked) -> Ending {
    follow(rt, asked, |sheet| Following::record(sheet), answer_record)
}
