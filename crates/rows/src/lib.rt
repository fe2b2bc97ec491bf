// Rows: a row stands on a line of its own in the list that the program which runs it reads:
// letters for what it is about and for its form, the figures that it starts from, a bar, its name, a bar, and what is to be answered, as it is to be written.
// Every call answers any list. What a call writes goes to standard output and is no part of its answer: where a part of an answer
// ends in the list, a figure of a row, a table, or the tally; a part that does not stand in the list has no end, nor has what comes after it.
#![tactic(auto)]

mod list;
mod tables;

ghost use Rattle.std.specs.Prelude.{◌≡◌, [], ◌∷◌, slice_index};
ghost use Rattle.rows.specs.Lists.{after, Next, First, figure_of};
ghost use Rattle.rows.specs.Answers.{text_end, number_end, bytes_end, ends_line};
ghost use Rattle.rows.specs.Tallies.{no_rows, counted};
ghost use Rattle.rows.specs.Tables.{table_by, choice_of};

use sheet::Table;

// The descriptor of standard output, on which all is written.
const STDOUT_FILENO: i32 = 1;

// Sheet A's table: the count, the interval, and the six fields of each record.
pub const TABLE_A: &[u8] = b"A 3 9 4 4 12 12 3 3 3 3 20 20 2 2 1 1 35 35 1 1|";

// The same with rubbish in each record past the count.
pub const TABLE_A_AND_RUBBISH: &[u8] = b"A 3 9 4 4 12 12 3 3 3 3 20 20 2 2 1 1 35 35 1 1 \
    65535 0 1 0 200 255 65535 0 1 0 200 255 65535 0 1 0 200 255 65535 0 1 0 200 255 65535 0 1 0 200 255|";

// The table of a lone task with C and B 1, D and T 2, at E = 2.
pub const TABLE_LONE: &[u8] = b"1 1 2 1 1 2 2 1 1|";

// How many rows were run, and how many of them did not answer as expected.
#[derive(Clone, Copy)]
pub struct Tally {
    pub rows: u64,
    pub differ: u64,
}

// Before the first row.
pub fn none() -> Tally
    ensures { result ≡ no_rows }
{
    Tally { rows: 0, differ: 0 }
}

// The place of the row after the one at a place.
pub fn next(list: &[u8], start: usize) -> usize
    ensures { Next list.now start result }
{
    list::after(list, start, b'\n')
}

// The byte at a place, or 0 past the end. At a row's place stands its first letter.
pub fn byte(list: &[u8], place: usize) -> u8
    ensures { result ≡ slice_index list.now place }
{
    list::byte(list, place)
}

// The first bytes of a list, or all of it where it is shorter.
pub fn first(list: &[u8], length: usize) -> &[u8]
    ensures { First list.entry length result }
{
    if length <= list.len() {
        &list[..length]
    } else {
        &list[..]
    }
}

// A figure of a row, from 1; 0 where it has no such figure.
pub fn figure(list: &[u8], start: usize, which: usize) -> u64
    ensures { result ≡ figure_of list.now start which }
{
    list::figure(list, start, which)
}

// The table of a base, with the fields that a row replaces: from a figure of the row on, a field's number and its value, eight times at most.
pub fn table(base: &[u8], list: &[u8], start: usize, first: usize) -> Table
    ensures { result ≡ table_by base.now list.now start first }
{
    tables::table(tables::patched(tables::fields_of(base), list, start, first))
}

// The choice that the digits of a number spell, the last of them its eighth entry.
pub fn choice(number: u64) -> [u8; 8]
    ensures { result ≡ choice_of number }
{
    [
        (number / 10000000 % 10) as u8,
        (number / 1000000 % 10) as u8,
        (number / 100000 % 10) as u8,
        (number / 10000 % 10) as u8,
        (number / 1000 % 10) as u8,
        (number / 100 % 10) as u8,
        (number / 10 % 10) as u8,
        (number % 10) as u8,
    ]
}

// Writes a row's name, and gives the place of what is to be answered.
pub fn begin(list: &[u8], start: usize) -> usize
    ensures { result ≡ after list.now (after list.now start 124) 124 }
{
    let name = list::after(list, start, b'|');
    let answer = list::after(list, name, b'|');
    list::write_line(list, name, answer);
    answer
}

// Writes a text of an answer.
pub fn say(list: &[u8], at: Option<usize>, text: &[u8]) -> Option<usize>
    ensures { result ≡ text_end list.now at text.now }
{
    io::write_all(STDOUT_FILENO, text);
    list::stands(list, at, text)
}

// Writes a number of an answer.
pub fn say_number(list: &[u8], at: Option<usize>, value: u64) -> Option<usize>
    ensures { result ≡ number_end list.now at value }
{
    io::print_decimal(STDOUT_FILENO, value);
    list::number_stands(list, at, value)
}

// Writes a number of an answer after a space.
pub fn say_spaced(list: &[u8], at: Option<usize>, value: u64) -> Option<usize>
    ensures { result ≡ number_end list.now (text_end list.now at (32 ∷ [])) value }
{
    let space = say(list, at, b" ");
    say_number(list, space, value)
}

// Writes each byte of an answer by two hexadecimal digits, after a space.
pub fn say_bytes(list: &[u8], at: Option<usize>, bytes: &[u8]) -> Option<usize>
    ensures { result ≡ bytes_end list.now at bytes.now }
{
    let mut end = at;
    for byte in bytes {
        let digits = list::hexadecimal(*byte);
        end = say(list, end, &digits);
    }
    end
}

// Ends the line of a row whose answer stands at a place and came to an end, which is a line's end where the answer is the expected one;
// where it is not, what was expected is written too.
pub fn end(tally: Tally, list: &[u8], at: usize, end: Option<usize>) -> Tally
    ensures { result ≡ counted tally (ends_line list.now end) }
{
    let is_expected = list::ends_line(list, end);
    if !is_expected {
        io::write_all(STDOUT_FILENO, b" EXPECTED");
        list::write_line(list, at, list::after(list, at, b'\n'));
    }
    io::write_all(STDOUT_FILENO, b"\n");
    list::count(tally, is_expected)
}

// Writes how many rows there were, and how many of them differ.
pub fn total(tally: Tally)
    ensures { result ≡ tt }
{
    io::print_decimal(STDOUT_FILENO, tally.rows);
    io::write_all(STDOUT_FILENO, b" rows, ");
    io::print_decimal(STDOUT_FILENO, tally.differ);
    io::write_all(STDOUT_FILENO, b" differ\n");
}
