// `assured`: the assured time of each task, and every choice of fault priorities that holds in every run.
use analysis::{Entry, Slack};
use assured::Times;
use console::{output, passing, refusals, responses};
use sheet::Table;
use sources::taking;
use sources::taking::Taken;
use sources::titles::Named;
use std::io::Error;
use streams::endings::Ending;
use streams::words::Asked;
use streams::{endings, words};

// An assured time as the lines print it, which has no slack.
fn untimed(given: assured::Entry) -> Entry {
    let outcome = given.outcome;
    Entry {
        deadline: given.deadline,
        outcome,
        slack: Slack::NoFigure,
    }
}

// Prints a line for each task.
fn print_times(rt: HostRuntime, taken: Taken, times: Times) -> Result<(), Error> {
    let stream = rt.stdout();
    let tasks = taken.tasks;
    let named = Named { tasks };
    let entries = times.entries.map(|entry| untimed(entry));
    let mut page = output::EMPTY;
    responses::keep(&mut page, &stream, taken.table.count, entries, &named)?;
    page.write(&stream)
}

// Prints every assured choice of a table.
fn print_choices(rt: HostRuntime, table: Table) -> Result<(), Error> {
    let mut list = [0u8; passing::ROOM];
    let entries = assured::list(table, &mut list).unwrap_or(0);
    passing::print_list(rt, table.count, &list, entries)
}

// Prints the times, and then the choices.
fn print(rt: HostRuntime, taken: Taken, times: Times) -> Result<(), Error> {
    print_times(rt, taken, times)?;
    print_choices(rt, taken.table)
}

// Prints the answer to a good sheet.
fn answer(rt: HostRuntime, taken: Taken, is_explained: bool) -> Ending {
    match assured::assured_times(taken.table) {
        Ok(times) => endings::ended(print(rt, taken, times), endings::of(times.assured)),
        Err(refusal) => refusals::print(rt, refusal.number(), is_explained),
    }
}

// Assures the sheet that the one word names.
pub fn run(rt: HostRuntime, asked: Asked) -> Ending {
    if asked.count != 1 {
        return words::trouble(b"assured takes one word, SHEET");
    }
    match taking::table(rt, asked, words::at(asked, 0)) {
        Some(taken) => answer(rt, taken, asked.is_explained),
        None => Ending::Trouble,
    }
}
