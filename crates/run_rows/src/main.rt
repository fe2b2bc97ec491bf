// Runs the rows that its standard input lists, document 01's, row 16 as document 02 has it, and rows around each rule, bound and refusal, and
// prints each with its answer: about sheets, times, lists and walks of choices, and printed lines.
// A line that ends in EXPECTED and what was expected is a row that differs; the last line counts the rows and those that differ.
// A row begins with two letters: the first for what it is about, the second for its form, whose figures stand at the form's function.
#![tactic(auto)]

mod chosen_tables;
mod lines;
mod lists;
mod row;
mod sheet_samples;
mod sheets;
mod timed_tables;
mod times;
mod walks;

use row::Row;
use rows::Tally;

// The descriptor of standard input.
const STDIN_FILENO: i32 = 0;

// Runs every row of the list that standard input holds.
fn main() {
    let mut buffer = io::large_buffer();
    let length = io::read_full(STDIN_FILENO, &mut buffer);
    rows::total(run(&buffer[..length]));
}

// Runs every row of a list. Where the next one begins is found, and not counted.
fn run(list: &[u8]) -> Tally {
    let mut tally = rows::none();
    let mut start: usize = 0;
    while start < list.len() {
        tally = answer_row(tally, list, start);
        start = rows::next(list, start);
    }
    tally
}

// Runs the row at a place.
fn answer_row(tally: Tally, list: &[u8], start: usize) -> Tally {
    let at = rows::begin(list, start);
    let form = rows::byte(list, start.wrapping_add(1));
    let row = Row { list, start };
    let end = match rows::byte(list, start) {
        b's' => sheets::answer(form, row, Some(at)),
        b't' => times::answer(form, row, Some(at)),
        b'l' => lists::answer(form, row, Some(at)),
        b'w' => walks::answer(form, row, Some(at)),
        b'p' => lines::answer(form, row, Some(at)),
        _ => None,
    };
    rows::end(tally, list, at, end)
}
