// Refusals: the number's line on standard output, and the rule in words where that is asked for.
use crate::output;
use intake::sheets::Given;
use intake::{explanation, sheets};
use report::Name;
use streams::endings::Ending;

// Prints a refusal's line.
fn line(rt: HostRuntime, refusal: u8) -> Ending {
    output::line(
        rt,
        report::named_line(Name::Refused, refusal as u64),
        Ending::Trouble,
    )
}

// Prints a refusal that is no record's.
pub fn print(rt: HostRuntime, refusal: u8, is_explained: bool) -> Ending {
    let ending = line(rt, refusal);
    if is_explained {
        explanation::print(refusal);
    }
    ending
}

// Prints a sheet's refusal.
pub fn print_of(rt: HostRuntime, given: Given, refusal: u8, is_explained: bool) -> Ending {
    print_called(rt, b"", given, refusal, is_explained)
}

// Prints the refusal of a text at a line and a column.
pub fn print_at(rt: HostRuntime, refusal: u8, line: u64, column: u64) -> Ending {
    let refused = report::refused_at_line(refusal, line, column);
    output::line(rt, refused, Ending::Trouble)
}

// Prints the refusal of one of two sheets.
pub fn print_called(
    rt: HostRuntime,
    called: &[u8],
    given: Given,
    refusal: u8,
    is_explained: bool,
) -> Ending {
    let ending = line(rt, refusal);
    if is_explained {
        explanation::print_of(called, sheets::unjudged(given), refusal);
        explanation::print_of_text(given.sheet());
    }
    ending
}
