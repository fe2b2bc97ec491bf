// Lines of settings.
ghost use Rattle.std.specs.Prelude.{◌≡◌};
ghost use Rattle.lines.specs.Settings.{is_given, with_setting, setting_with, setting_to, is_lone, is_named_line, are_first, is_open, is_pair, no_more, named_read, share_after, pair_read};

use crate::finding::Extent;
use crate::{Reading, Settings, finding, refusing};
use cells::{Cells, Number};

// Whether a setting is given.
pub fn is_given(settings: Settings, which: u8) -> bool
    ensures { result ≡ is_given settings which }
{
    settings.given.get(which as usize).copied().unwrap_or(false)
}

// The settings with one more.
fn with_setting(settings: Settings, which: u8, value: u64) -> Settings
    ensures { result ≡ with_setting settings which value }
{
    if 4 <= which {
        return settings;
    }
    let mut more = settings;
    more.given[which as usize] = true;
    more.values[which as usize] = value;
    more
}

// A setting's number, or why it is none.
fn setting_with(
    reading: Reading,
    number: u64,
    line: &[u8],
    which: u8,
    at: Extent,
    value: Number,
) -> Reading
    ensures { result ≡ setting_with reading number line.now which at.start at.end value }
{
    if value.refusal != 0 {
        return refusing::fails(reading, number, line, at, value.refusal, 0);
    }
    Reading {
        settings: with_setting(reading.settings, which, value.value),
        ..reading
    }
}

// A setting's cell.
pub fn setting_to(reading: Reading, number: u64, line: &[u8], which: u8, at: Extent) -> Reading
    ensures { result ≡ setting_to reading number line.now which at.start at.end }
{
    let value = cells::number_of(cells::part(line, at.start, at.end));
    setting_with(reading, number, line, which, at, value)
}

// Whether a line is a number by itself where there is no interval yet.
pub fn is_lone(reading: Reading, line: &[u8], words: Cells) -> bool
    ensures { result ≡ is_lone reading line.now words }
{
    (words.count == 1)
        & !is_given(reading.settings, 1)
        & finding::begins_number(finding::cell_of(line, words, 0))
}

// Whether a line is a setting by its name.
pub fn is_named_line(line: &[u8], words: Cells) -> bool
    ensures { result ≡ is_named_line line.now words }
{
    let which = cells::setting_of(finding::cell_of(line, words, 0));
    (2 <= words.count) & !(which == 0) & finding::begins_number(finding::cell_of(line, words, 1))
}

// Whether two words are the line's first two cells.
fn are_first(words: Cells, cells: Cells) -> bool
    ensures { result ≡ are_first words cells }
{
    (finding::start_of(cells, 0) == finding::start_of(words, 0))
        & (finding::start_of(cells, 1) == finding::start_of(words, 1))
}

// Whether round and share may follow.
fn is_open(settings: Settings) -> bool
    ensures { result ≡ is_open settings }
{
    is_given(settings, 1) & !(is_given(settings, 2) | is_given(settings, 3))
}

// Whether a line is that of round and share.
pub fn is_pair(reading: Reading, line: &[u8], words: Cells) -> bool
    ensures { result ≡ is_pair reading line.now words }
{
    let cells = cells::split(line, cells::separator_of(line));
    let first = finding::begins_number(finding::cell_of(line, words, 0));
    let second = finding::begins_number(finding::cell_of(line, words, 1));
    (words.count == 2) & is_open(reading.settings) & first & second & are_first(words, cells)
}

// One number too many.
fn no_more(reading: Reading, number: u64, line: &[u8], words: Cells) -> Reading
    ensures { result ≡ no_more reading number line.now words }
{
    if refusing::is_refused(reading) | (words.count <= 2) {
        return reading;
    }
    refusing::fails(reading, number, line, finding::extent_of(words, 2), 32, 0)
}

// A setting by its name.
pub fn named_read(reading: Reading, number: u64, line: &[u8], words: Cells, which: u8) -> Reading
    ensures { result ≡ named_read reading number line.now words which }
{
    if is_given(reading.settings, which) {
        return refusing::fails(reading, number, line, finding::extent_of(words, 0), 44, 0);
    }
    let next = setting_to(reading, number, line, which, finding::extent_of(words, 1));
    no_more(next, number, line, words)
}

// The share after the round.
fn share_after(reading: Reading, number: u64, line: &[u8], words: Cells) -> Reading
    ensures { result ≡ share_after reading number line.now words }
{
    if refusing::is_refused(reading) {
        return reading;
    }
    setting_to(reading, number, line, 3, finding::extent_of(words, 1))
}

// Round and share.
pub fn pair_read(reading: Reading, number: u64, line: &[u8], words: Cells) -> Reading
    ensures { result ≡ pair_read reading number line.now words }
{
    let next = setting_to(reading, number, line, 2, finding::extent_of(words, 0));
    share_after(next, number, line, words)
}
