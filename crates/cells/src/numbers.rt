// A cell as a number, and what stands in a cell that is quoted.
ghost use Rattle.std.specs.Prelude.{◌≡◌, ◌≤◌, ◌==◌, false, length};
ghost use Rattle.cells.specs.Numbers.{paired, is_quoted, is_closed, between, quotes_refusal, content_of, are_digits, digit_of, no_number, not_number, with_digit, value_from, why_not, spelled};

use crate::{Number, kinds};

// Whether each quote stands there twice.
fn is_paired(bytes: &[u8]) -> bool
    ensures { result ≡ paired false bytes.now }
{
    let mut odd = false;
    for &byte in bytes {
        if odd & (byte != b'"') {
            return false;
        }
        odd = kinds::turned(odd, byte);
    }
    !odd
}

// Whether a cell stands in quotes.
pub fn is_quoted(cell: &[u8]) -> bool
    ensures { result ≡ is_quoted cell.now }
{
    kinds::byte_at(cell, 0) == b'"'
}

// The bytes of a cell between its first and its last.
fn between(cell: &[u8]) -> &[u8]
    requires { 2 ≤ length cell.now }
    ensures { result.now ≡ between cell.now }
{
    let end = cell.len() - 1;
    &cell[1..end]
}

// Whether a cell's quotes are closed, with nothing after them.
fn is_closed(cell: &[u8]) -> bool
    ensures { result ≡ is_closed cell.now }
{
    if cell.len() < 2 {
        return false;
    }
    (kinds::byte_at(cell, cell.len() - 1) == b'"') & is_paired(between(cell))
}

// Whether a cell's quotes are right: it has none, or they are closed.
pub fn is_well_quoted(cell: &[u8]) -> bool
    ensures { result ≡ (quotes_refusal cell.now == 0) }
{
    !is_quoted(cell) | is_closed(cell)
}

// What a cell says.
pub fn content_of(cell: &[u8]) -> &[u8]
    ensures { result.now ≡ content_of cell.now }
{
    if cell.len() < 2 {
        return cell;
    }
    if is_quoted(cell) {
        return between(cell);
    }
    cell
}

// Whether bytes are digits, and with them points.
fn are_digits(bytes: &[u8], points: bool) -> bool
    ensures { result ≡ are_digits points bytes.now }
{
    bytes.iter().all(|byte| kinds::is_digit(*byte) | (points & kinds::is_point(*byte)))
}

// The value of a digit, 0 of any other byte.
fn digit_of(byte: u8) -> u64
    ensures { result ≡ digit_of byte }
{
    if kinds::is_digit(byte) {
        u64::from(byte - b'0')
    } else {
        0
    }
}

// No number, and why.
pub fn not_number(refusal: u8) -> Number
    ensures { result ≡ not_number refusal }
{
    Number { refusal, value: 0 }
}

// A number with one digit more.
fn with_digit(number: Number, byte: u8) -> Number
    ensures { result ≡ with_digit number byte }
{
    if number.refusal != 0 {
        return number;
    }
    let longer = number
        .value
        .checked_mul(10)
        .and_then(|tens| tens.checked_add(digit_of(byte)));
    match longer {
        Some(value) => Number { refusal: 0, value },
        None => not_number(31),
    }
}

// The number that digits spell.
fn value_of(digits: &[u8]) -> Number
    ensures { result ≡ value_from no_number digits.now }
{
    digits
        .iter()
        .fold(not_number(0), |number, digit| with_digit(number, *digit))
}

// Why a cell is no number.
fn why_not(cell: &[u8]) -> u8
    ensures { result ≡ why_not cell.now }
{
    if cell.is_empty() {
        return 35;
    }
    let first = kinds::byte_at(cell, 0);
    if kinds::is_digit(first) & are_digits(cell, true) {
        return 36;
    }
    if (first == b'-') & kinds::is_digit(kinds::byte_at(cell, 1)) {
        return 37;
    }
    30
}

// The number that the content of a cell spells.
pub fn spelled(cell: &[u8]) -> Number
    ensures { result ≡ spelled cell.now }
{
    if !cell.is_empty() & are_digits(cell, false) {
        return value_of(cell);
    }
    not_number(why_not(cell))
}
