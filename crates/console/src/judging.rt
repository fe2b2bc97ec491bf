// `judge`: what document 01 says of a sheet, its times and then its choices.
use crate::responses::{Titles, Untitled};
use crate::{passing, refusals, responses, taking};
use analysis::{Entry, Rule};
use intake::explanation;
use sheet::Table;
use std::io::Error;
use streams::endings::Ending;
use streams::words::Asked;
use streams::{endings, words};

// Says where a passing sheet's own choice is not assured. Of a shared processor nothing is assured, and nothing is said.
fn warn(table: Table) {
    if let Ok(assured) = analysis::assess_by(table, Rule::Assured) {
        if !assured.passes {
            explanation::say(
                b"desk: the sheet passes by the published equations, but its own fault priorities are not assured: a job may still miss (./desk assured)\n",
            );
        }
    }
}

// Prints the times of a good sheet, and then its choices.
fn print<T: Titles>(
    rt: HostRuntime,
    table: Table,
    entries: [Entry; 8],
    titles: &T,
) -> Result<(), Error> {
    responses::print(rt, table, entries, titles)?;
    passing::print(rt, table)
}

// Prints the answer to a good sheet, each task's line as it is titled by its place, from 0.
pub fn answer<T: Titles>(rt: HostRuntime, table: Table, is_explained: bool, titles: &T) -> Ending {
    let assessment = match analysis::assess(table) {
        Ok(assessment) => assessment,
        Err(refusal) => return refusals::print(rt, refusal.number(), is_explained),
    };
    if let Err(error) = print(rt, table, assessment.entries, titles) {
        return endings::failed(error);
    }
    if is_explained & assessment.passes {
        warn(table);
    }
    endings::of(assessment.passes)
}

// Judges the sheet that an argument names.
fn judge(rt: HostRuntime, place: usize, is_explained: bool) -> Ending {
    match taking::table(rt, place, is_explained) {
        Ok(table) => answer(rt, table, is_explained, &Untitled),
        Err(ending) => ending,
    }
}

// Judges the sheet that the one word names, or standard input where there is none.
pub fn run(rt: HostRuntime, asked: Asked) -> Ending {
    match asked.count {
        0 => judge(rt, 0, asked.is_explained),
        1 => judge(rt, words::at(asked, 0), asked.is_explained),
        _ => words::trouble(
            b"judge takes one SHEET at a time, and the first word is no other command",
        ),
    }
}
