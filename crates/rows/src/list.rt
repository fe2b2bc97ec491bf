// Reading in a list of bytes: places, numbers, what stands at a place; and what is written of it.
ghost use Rattle.std.specs.Prelude.{◌≡◌, ◌/◌, ◌%◌, slice_index};
ghost use Rattle.rows.specs.Lists.{after, grown, number_at, figure_of};
ghost use Rattle.rows.specs.Answers.{text_end, number_end, glyph, hex_text, ends_line};
ghost use Rattle.rows.specs.Tallies.{counted, more};

use crate::{STDOUT_FILENO, Tally};

// The number whose digits stand at a place of a list, and the place after them.
#[derive(Clone, Copy)]
pub struct Digits {
    pub value: u64,
    pub end: usize,
}

// The byte at a place, or 0 past the end.
pub fn byte(list: &[u8], place: usize) -> u8
    ensures { result ≡ slice_index list.now place }
{
    list.get(place).copied().unwrap_or(0)
}

// The place after the first such byte from a place on, or the end where there is none. With `position` in place of the loop the proof did not
// close: `after` counts bytes up to the first such one, and the call's answer says which one is the first.
pub fn after(list: &[u8], start: usize, mark: u8) -> usize
    ensures { result ≡ after list.now start mark }
{
    for place in start..list.len() {
        if list[place] == mark {
            return place + 1;
        }
    }
    start.max(list.len())
}

// A number with one digit more, as far as 64 bits hold it.
#[tactic(auto, unfolding(crate::specs::Lists::grown))]
fn grow(value: u64, digit: u8) -> u64
    ensures { result ≡ grown value digit }
{
    let tens = value % 1844674407370955162 * 10;
    tens.wrapping_add(u64::from(digit % 16))
}

// The number whose digits stand at a place. The loop finds value and end in one pass, which no chain does more plainly.
fn number(list: &[u8], at: usize) -> Digits
    ensures { result ≡ number_at list.now at }
{
    let mut value: u64 = 0;
    for end in at..list.len() {
        let digit = list[end];
        if (digit < b'0') | (b'9' < digit) {
            return Digits { value, end };
        }
        value = grow(value, digit);
    }
    Digits {
        value,
        end: at.max(list.len()),
    }
}

// A figure of a row: the number after so many spaces, 0 where they are not all in front of the row's first bar. The place is handed from turn
// to turn as `field_at` does it.
pub fn figure(list: &[u8], start: usize, which: usize) -> u64
    ensures { result ≡ figure_of list.now start which }
{
    let mut place = start;
    for passed in 0..which {
        place = after(list, place, b' ');
    }
    let read = number(list, place);
    if place < after(list, start, b'|') {
        read.value
    } else {
        0
    }
}

// Where a text ends that stands at a place.
#[tactic(auto, unfolding(crate::specs::Answers::text_end))]
pub fn stands(list: &[u8], at: Option<usize>, text: &[u8]) -> Option<usize>
    ensures { result ≡ text_end list.now at text.now }
{
    let Some(place) = at else {
        return None;
    };
    let rest = &list[place.min(list.len())..];
    if rest.starts_with(text) {
        Some(place + text.len())
    } else {
        None
    }
}

// Where a number ends that stands at a place.
#[tactic(auto, unfolding(crate::specs::Answers::number_end))]
pub fn number_stands(list: &[u8], at: Option<usize>, value: u64) -> Option<usize>
    ensures { result ≡ number_end list.now at value }
{
    let Some(place) = at else {
        return None;
    };
    let read = number(list, place);
    if read.end == place {
        return None;
    }
    if read.value == value {
        Some(read.end)
    } else {
        None
    }
}

// Whether what was said ends where a line does.
#[tactic(auto, unfolding(crate::specs::Answers::ends_line))]
pub fn ends_line(list: &[u8], end: Option<usize>) -> bool
    ensures { result ≡ ends_line list.now end }
{
    match end {
        Some(place) => byte(list, place) == b'\n',
        None => false,
    }
}

// A hexadecimal digit.
fn digit(value: u8) -> u8
    ensures { result ≡ glyph (value % 16) }
{
    let figure = value % 16;
    if figure < 10 {
        48 + figure
    } else {
        87 + figure
    }
}

// A byte by two hexadecimal digits, after a space.
pub fn hexadecimal(value: u8) -> [u8; 3]
    ensures { result ≡ hex_text value }
{
    [b' ', digit(value / 16), digit(value)]
}

// Writes the bytes from a place to an end, but for the last one, which ends them.
pub fn write_line(list: &[u8], start: usize, end: usize) {
    if start < end {
        if end <= list.len() {
            let last = end - 1;
            io::write_all(STDOUT_FILENO, &list[start..last]);
        }
    }
}

// One more, up to the largest number there is.
#[tactic(auto, unfolding(crate::specs::Tallies::more))]
fn one_more(count: u64) -> u64
    ensures { result ≡ more count }
{
    count.saturating_add(1)
}

// A tally with one row more.
pub fn count(tally: Tally, is_expected: bool) -> Tally
    ensures { result ≡ counted tally is_expected }
{
    Tally {
        rows: one_more(tally.rows),
        differ: if is_expected {
            tally.differ
        } else {
            one_more(tally.differ)
        },
    }
}
