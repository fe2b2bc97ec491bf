// `cores`: the core of each record, or the first record that fits none.
use console::{output, refusals};
use cores::Placing;
use lines::Task;
use report::Name;
use sources::inputs::Source;
use sources::{inputs, titles};
use std::io::Error;
use streams::endings::Ending;
use streams::words::Asked;
use streams::{endings, numbers, words};

// Prints the core of each record, up to the first that has none.
fn print(rt: HostRuntime, cores: [u8; 8], tasks: &[Task; 8]) -> Result<(), Error> {
    let stream = rt.stdout();
    let mut page = output::EMPTY;
    for (place, core) in (0u8..8).zip(&cores) {
        if *core == 0 {
            break;
        }
        page.keep(
            &stream,
            titles::titled(report::core_line(place, *core), tasks, place),
        )?;
    }
    page.write(&stream)
}

// Prints the answer to a sheet and a number of cores.
fn answer(rt: HostRuntime, source: Source, number: u8, is_explained: bool) -> Ending {
    let given = source.given;
    let tasks = source.tasks;
    match cores::place(given.sheet(), number) {
        Err(refusal) => refusals::print_of(rt, given, refusal.number(), is_explained),
        Ok(Placing::Everyone(cores)) => endings::ended(print(rt, cores, &tasks), Ending::Holds),
        Ok(Placing::FitsNone(place)) => {
            let line = report::named_line(Name::FitsNone, place as u64);
            let titled = titles::titled_from_1(line, &tasks, place);
            output::line(rt, titled, Ending::Fails)
        }
    }
}

// Puts the records of the sheet that the second word names on as many cores as the first one says.
pub fn run(rt: HostRuntime, asked: Asked) -> Ending {
    if asked.count != 2 {
        return words::trouble(b"cores takes two words, the number of cores and SHEET");
    }
    let Some(number) = numbers::word(rt, words::at(asked, 0)) else {
        return words::trouble(b"the number of cores, the first word, is not a number");
    };
    match inputs::sheet_at(rt, asked, words::at(asked, 1)) {
        Some(source) => answer(rt, source, number, asked.is_explained),
        None => Ending::Trouble,
    }
}
