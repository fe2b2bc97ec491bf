// The interval and the response of each record.
use crate::output;
use crate::output::Page;
use analysis::Entry;
use report::{Line, Name};
use sheet::Table;
use std::io::{Error, Print};

// How the lines of tasks are titled, each by its task's place, from 0.
pub trait Titles {
    fn titled(&self, line: Line, place: u8) -> Line;
}

// They stay as they are.
#[derive(Clone, Copy)]
pub struct Untitled;

impl Titles for Untitled {
    fn titled(&self, line: Line, _place: u8) -> Line {
        line
    }
}

// Gathers a line for each of so many tasks, each as it is titled by its place, from 0.
pub fn keep<P: Print, T: Titles>(
    page: &mut Page,
    stream: &P,
    count: u8,
    entries: [Entry; 8],
    titles: &T,
) -> Result<(), Error> {
    for (place, entry) in (0..count).zip(&entries) {
        page.keep(
            stream,
            titles.titled(report::task_line(place, *entry), place),
        )?;
    }
    Ok(())
}

// Prints the interval line and a line for each record.
pub fn print<T: Titles>(
    rt: HostRuntime,
    table: Table,
    entries: [Entry; 8],
    titles: &T,
) -> Result<(), Error> {
    let stream = rt.stdout();
    let mut page = output::EMPTY;
    let interval = report::named_line(Name::Interval, table.interval as u64);
    page.keep(&stream, interval)?;
    keep(&mut page, &stream, table.count, entries, titles)?;
    page.write(&stream)
}
