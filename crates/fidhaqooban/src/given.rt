// What is given as the numbers of C: tables and choices.
ghost use Rattle.std.specs.Prelude.{◌≡◌, ◌≤◌, ◌<◌, slice_index_or};
ghost use Rattle.sheet.specs.Layout.{count_of};
ghost use Rattle.sheet.specs.Rules.{sheet_refusal};
ghost use Rattle.fidhaqooban.specs.Numbers.{byte_of, given_record, table_from, given_table, entries_of};

use sheet::{Record, Table};

// The number at a place, or another where there is none.
pub fn number_at<T: Copy>(numbers: &[T], place: usize, none: T) -> T
    ensures { result ≡ slice_index_or numbers.now place none }
{
    numbers.get(place).copied().unwrap_or(none)
}

// A number as a byte, 255 where it is larger.
fn byte(number: u16) -> u8
    ensures { result ≡ byte_of number }
{
    if number < 255 { number as u8 } else { 255 }
}

// The record of the six numbers at a place.
fn record(numbers: &[u16], place: usize) -> Record
    requires { place < 8 }
    ensures { result ≡ given_record numbers.now place }
{
    let start = 6 * place;
    Record {
        cost: number_at(numbers, start, 0),
        backup: number_at(numbers, start + 1, 0),
        deadline: number_at(numbers, start + 2, 0),
        period: number_at(numbers, start + 3, 0),
        priority: byte(number_at(numbers, start + 4, 0)),
        fault_priority: byte(number_at(numbers, start + 5, 0)),
    }
}

// The table of numbers that are all its own.
fn table_of(count: u8, interval: u16, round: u16, share: u16, numbers: &[u16]) -> Table
    ensures { result ≡ table_from count interval round share numbers.now }
{
    let mut records = [record(numbers, 0); 8];
    for place in 1..8 {
        records[place] = record(numbers, place);
    }
    Table {
        count,
        interval,
        round,
        share,
        records,
    }
}

// The table of numbers, those after six for each record ignored.
pub fn table(count: u8, interval: u16, round: u16, share: u16, numbers: &[u16]) -> Table
    ensures { result ≡ given_table count interval round share numbers.now }
{
    let end = 6 * count as usize;
    if end < numbers.len() {
        return table_of(count, interval, round, share, &numbers[..end]);
    }
    table_of(count, interval, round, share, numbers)
}

// A good sheet's count.
pub fn count(sheet: &[u8]) -> usize
    requires { sheet_refusal sheet.now ≡ 0 }
    ensures answer { result ≡ count_of sheet.now }
    ensures bounded { result ≤ 8 }
{
    let table = sheet::read(sheet).unwrap();
    table.count as usize
}

// The entries of a choice that is given as a number.
pub fn entries_of(choice: u32) -> [u8; 8]
    ensures { result ≡ entries_of choice }
{
    let mut entries = [0u8; 8];
    let mut rest = choice;
    for place in (0..8).rev() {
        entries[place] = (rest % 16) as u8;
        rest = rest / 16;
    }
    entries
}
