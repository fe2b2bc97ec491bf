// Rows of lists: what is answered in each form of listing every passing choice into the first bytes of a buffer, so many as the second figure says.
// The buffer holds the filler EE before, a byte that no list has in it.
use crate::chosen_tables;
use crate::row::Row;
use places::refusal::Refusal;
use sheet::Table;

// What each byte of the buffer holds before.
const FILLER: u8 = 0xEE;

// Says a refusal and the number of choices found, each 0 beside the other, and the word in front of the bytes that came with them.
pub fn say_listing(row: Row, at: Option<usize>, answer: Result<usize, Refusal>) -> Option<usize> {
    let (number, entries) = match answer {
        Ok(entries) => (0, entries),
        Err(refusal) => (refusal.number(), 0),
    };
    let at = row.say(at, b" refusal");
    let at = row.say_spaced(at, number as u64);
    let at = row.say(at, b", found");
    let at = row.say_spaced(at, entries as u64);
    row.say(at, b", bytes")
}

// Lists a table's choices into the first bytes of a buffer.
fn list_into(table: Table, buffer: &mut [u8], length: usize) -> Result<usize, Refusal> {
    let room = length.min(buffer.len());
    choices::list(table, &mut buffer[..room])
}

// How many bytes of so many are said: all, or the first sixteen where there are many.
fn shown(length: usize) -> usize {
    if length <= 24 { length } else { 16 }
}

// The list, and the first bytes of the buffer after it.
fn listed(row: Row, at: Option<usize>) -> Option<usize> {
    let mut buffer = [FILLER; 161280];
    let length = row.size(2);
    let answer = list_into(chosen_tables::table(row), &mut buffer, length);
    let found = say_listing(row, at, answer);
    row.say_bytes(found, rows::first(&buffer, shown(length)))
}

// A checksum of the whole buffer after it.
fn checked(row: Row, at: Option<usize>) -> Option<usize> {
    let mut buffer = [FILLER; 161280];
    let length = row.size(2);
    let _ = list_into(chosen_tables::table(row), &mut buffer, length);
    row.say_spaced(at, checksum(&buffer))
}

// A checksum with one byte more.
fn mixed(sum: u64, byte: u8) -> u64 {
    (sum % 4294967296 * 31 + byte as u64) % 4294967296
}

// A checksum of a list's bytes.
fn checksum(bytes: &[u8]) -> u64 {
    bytes.iter().fold(0, |sum, byte| mixed(sum, *byte))
}

// The answer of a form of row.
pub fn answer(form: u8, row: Row, at: Option<usize>) -> Option<usize> {
    match form {
        b'l' => listed(row, at),
        b'k' => checked(row, at),
        _ => None,
    }
}
