// `interval`: the least fault interval at which a sheet passes.
use console::{output, refusals};
use report::{Name, Saying};
use sheet::Table;
use sources::taking;
use streams::endings::Ending;
use streams::words;
use streams::words::Asked;

// Prints the answer to a good sheet.
fn answer(rt: HostRuntime, table: Table, is_explained: bool) -> Ending {
    match analysis::least_interval(table) {
        Err(refusal) => refusals::print(rt, refusal.number(), is_explained),
        Ok(Some(interval)) => output::line(
            rt,
            report::named_line(Name::Least, interval as u64),
            Ending::Holds,
        ),
        Ok(None) => output::line(rt, report::saying_line(Saying::NoInterval), Ending::Fails),
    }
}

// Finds the least interval of the sheet that the one word names.
pub fn run(rt: HostRuntime, asked: Asked) -> Ending {
    if asked.count != 1 {
        return words::trouble(b"interval takes one word, SHEET");
    }
    match taking::table(rt, asked, words::at(asked, 0)) {
        Some(taken) => answer(rt, taken.table, asked.is_explained),
        None => Ending::Trouble,
    }
}
