// `release`: which of two sheets a box loads.
use console::{output, refusals};
use intake::sheets;
use intake::sheets::Given;
use places::refusal::Refusal;
use report::Saying;
use sources::inputs;
use streams::endings::Ending;
use streams::words::Asked;
use streams::{input, numbers, words};

// The bit of a place from 1 to 8.
fn bit(place: u8) -> Option<u8> {
    match place {
        1..=8 => Some(1 << (place - 1)),
        _ => None,
    }
}

// The bits of the places from the third word on, or none where a word is no place.
fn places(rt: HostRuntime, asked: Asked) -> Option<u8> {
    let mut bits: u8 = 0;
    for which in 2..asked.count.min(255) as u8 {
        bits |= bit(numbers::word(rt, words::at(asked, which))?)?;
    }
    Some(bits)
}

// Prints the refusal of one of the sheets, or of both together.
fn refused(
    rt: HostRuntime,
    in_use: Given,
    candidate: Given,
    refusal: Refusal,
    is_explained: bool,
) -> Ending {
    let number = refusal.number();
    if sheets::reading(in_use).is_err() {
        return refusals::print_called(rt, b"the sheet in use: ", in_use, number, is_explained);
    }
    if sheets::reading(candidate).is_err() {
        return refusals::print_called(rt, b"the candidate: ", candidate, number, is_explained);
    }
    refusals::print(rt, number, is_explained)
}

// Prints the answer to two sheets.
fn answer(
    rt: HostRuntime,
    in_use: Given,
    candidate: Given,
    protected: u8,
    is_explained: bool,
) -> Ending {
    let (saying, ending) = match release::decide(in_use.sheet(), candidate.sheet(), protected) {
        Ok(true) => (Saying::LoadCandidate, Ending::Holds),
        Ok(false) => (Saying::LoadInUse, Ending::Fails),
        Err(refusal) => return refused(rt, in_use, candidate, refusal, is_explained),
    };
    output::line(rt, report::saying_line(saying), ending)
}

// Decides between the sheets that the first two words name, or finds that one is none, which is told.
fn between(rt: HostRuntime, asked: Asked, protected: u8) -> Option<Ending> {
    let in_use = inputs::sheet_at(rt, asked, words::at(asked, 0))?;
    let candidate = inputs::sheet_at(rt, asked, words::at(asked, 1))?;
    Some(answer(
        rt,
        in_use.given,
        candidate.given,
        protected,
        asked.is_explained,
    ))
}

// The same, where the words after them are places.
pub fn run(rt: HostRuntime, asked: Asked) -> Ending {
    if asked.count < 2 {
        return words::trouble(b"release takes IN_USE, CANDIDATE and the protected places");
    }
    if input::are_both_standard(rt, words::at(asked, 0), words::at(asked, 1)) {
        return words::standard_input_twice();
    }
    match places(rt, asked) {
        Some(bits) => between(rt, asked, bits).unwrap_or(Ending::Trouble),
        None => words::trouble(b"a protected place is a number from 1 to 8"),
    }
}
