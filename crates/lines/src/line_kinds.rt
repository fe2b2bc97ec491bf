// A line of a text: nothing, a setting, the header, or a task.
ghost use Rattle.std.specs.Prelude.{◌≡◌};
ghost use Rattle.lines.specs.Lines.{header_read, task_with, task_read, columns_read, first_read, early_read, words_read, line_read};

use crate::{Reading, column_lines, finding, refusing, setting_lines, task_lines};
use cells::Cells;

// The header line: its cells one after the other.
fn header_read(reading: Reading, number: u64, line: &[u8], cells: Cells) -> Reading
    ensures { result ≡ header_read reading number line.now cells }
{
    let read = (0..cells.count.min(8)).fold(reading, |next, place| {
        column_lines::column_to(next, number, line, finding::extent_of(cells, place))
    });
    column_lines::header_ended(read, number, line)
}

// A task's line by its cells, one after the other.
fn task_with(reading: Reading, number: u64, line: &[u8], cells: Cells) -> Reading
    ensures { result ≡ task_with reading number line.now cells }
{
    if 8 <= reading.count {
        return refusing::fails(reading, number, line, finding::extent_of(cells, 0), 34, 0);
    }
    let read = (0..cells.count.min(8)).fold(reading, |next, place| {
        task_lines::cell_to(next, number, line, place, finding::extent_of(cells, place))
    });
    task_lines::task_ended(read, number, line, cells.count)
}

// A task's line.
fn task_read(reading: Reading, number: u64, line: &[u8]) -> Reading
    ensures { result ≡ task_read reading number line.now }
{
    let cells = cells::split(line, reading.layout.separator);
    let task = refusing::task_at(number);
    task_with(Reading { task, ..reading }, number, line, cells)
}

// The first line that is no setting, by its separator.
fn columns_read(reading: Reading, number: u64, line: &[u8], words: Cells, separator: u8) -> Reading
    ensures { result ≡ columns_read reading number line.now words separator }
{
    if finding::begins_number(finding::cell_of(line, words, 0)) {
        let layout = column_lines::plain_layout(separator);
        return task_read(Reading { layout, ..reading }, number, line);
    }
    let layout = column_lines::named_layout(separator);
    let cells = cells::split(line, separator);
    header_read(Reading { layout, ..reading }, number, line, cells)
}

// The first line that is no setting.
fn first_read(reading: Reading, number: u64, line: &[u8], words: Cells) -> Reading
    ensures { result ≡ first_read reading number line.now words }
{
    if setting_lines::is_given(reading.settings, 1) {
        return columns_read(reading, number, line, words, cells::separator_of(line));
    }
    refusing::fails(reading, number, line, finding::extent_of(words, 0), 33, 0)
}

// A line before the first task's.
fn early_read(reading: Reading, number: u64, line: &[u8], words: Cells) -> Reading
    ensures { result ≡ early_read reading number line.now words }
{
    if setting_lines::is_lone(reading, line, words) {
        return setting_lines::setting_to(reading, number, line, 1, finding::extent_of(words, 0));
    }
    if setting_lines::is_named_line(line, words) {
        let which = cells::setting_of(finding::cell_of(line, words, 0));
        return setting_lines::named_read(reading, number, line, words, which);
    }
    if setting_lines::is_pair(reading, line, words) {
        return setting_lines::pair_read(reading, number, line, words);
    }
    first_read(reading, number, line, words)
}

// A line by its words.
fn words_read(reading: Reading, number: u64, line: &[u8], words: Cells) -> Reading
    ensures { result ≡ words_read reading number line.now words }
{
    if refusing::is_refused(reading) | (words.count == 0) {
        return reading;
    }
    if reading.layout.separator == 0 {
        return early_read(reading, number, line, words);
    }
    task_read(reading, number, line)
}

// A line.
pub fn line_read(reading: Reading, number: u64, line: &[u8]) -> Reading
    ensures { result ≡ line_read reading number line.now }
{
    words_read(reading, number, line, cells::split(line, 0))
}
