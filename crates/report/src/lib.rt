// The program's lines as bytes: one call for each kind of line, which answers any arguments with the whole line and its newline, and one that puts a line into an output.
#![tactic(auto)]

ghost use Rattle.std.specs.Prelude.{◌≡◌};
ghost use Rattle.report.specs.Texts.{line_of, named_text, saying_text, task_text, choice_text, core_text, change_text, line_change_text, refused_at_text};
ghost use Rattle.report.specs.Pages.{put_end, put_leaves};
ghost use Rattle.report.specs.Titles.{titled_line};

use analysis::Entry;
use mend::Change;

mod composing;
mod page;

// A line: its text at the start of the bytes, and the text's length. The bytes after it are zero.
#[derive(Clone, Copy)]
pub struct Line {
    pub bytes: [u8; 88],
    pub len: usize,
}

// What the number of a line is: the fault interval or the least one, the number of choices, a refusal, a count of a replay, the tick in
// which a record differs, the place of the record that fits no core.
#[derive(Clone, Copy)]
pub enum Name {
    Interval,
    Least,
    End,
    Refused,
    Attempts,
    Backups,
    Idle,
    Released,
    Finished,
    Missed,
    Unfinished,
    Differs,
    FitsNone,
}

// An answer that is words only: no interval, a record that is accepted, which sheet to load.
#[derive(Clone, Copy)]
pub enum Saying {
    NoInterval,
    Accepted,
    LoadInUse,
    LoadCandidate,
}

// A number under its name.
pub fn named_line(name: Name, number: u64) -> Line
    ensures { result ≡ line_of (named_text name number) }
{
    match name {
        Name::Interval => composing::numbered(b"interval ", number),
        Name::Least => composing::numbered(b"least ", number),
        Name::End => composing::numbered(b"end ", number),
        Name::Refused => composing::numbered(b"refused ", number),
        Name::Attempts => composing::numbered(b"attempts ", number),
        Name::Backups => composing::numbered(b"backups ", number),
        Name::Idle => composing::numbered(b"idle ", number),
        Name::Released => composing::numbered(b"released ", number),
        Name::Finished => composing::numbered(b"finished ", number),
        Name::Missed => composing::numbered(b"missed ", number),
        Name::Unfinished => composing::numbered(b"unfinished ", number),
        Name::Differs => composing::numbered(b"differs ", number),
        Name::FitsNone => composing::numbered(b"fits none ", number),
    }
}

// An answer in words.
pub fn saying_line(saying: Saying) -> Line
    ensures { result ≡ line_of (saying_text saying) }
{
    match saying {
        Saying::NoInterval => composing::begun(b"none\n"),
        Saying::Accepted => composing::begun(b"accepted\n"),
        Saying::LoadInUse => composing::begun(b"load in use\n"),
        Saying::LoadCandidate => composing::begun(b"load candidate\n"),
    }
}

// A task's response, or that it is late and by how much. The place is counted from 0 and printed from 1.
pub fn task_line(place: u8, entry: Entry) -> Line
    ensures { result ≡ line_of (task_text place entry) }
{
    let line = composing::begun(b"task ");
    let line = composing::with_number(line, place as u64 + 1);
    let line = composing::with_word(line, b" ");
    let line = composing::with_outcome(line, entry.outcome, entry.slack);
    composing::with_word(line, b"\n")
}

// A choice that passes: as many of its entries as the count says, at most eight.
pub fn choice_line(count: u8, choice: [u8; 8]) -> Line
    ensures { result ≡ line_of (choice_text count choice) }
{
    let entries = &choice[..count.min(8) as usize];
    let mut line = composing::begun(b"pass");
    for &entry in entries {
        line = composing::with_entry(line, entry);
    }
    composing::with_word(line, b"\n")
}

// A record's core. The place is counted from 0 and printed from 1.
pub fn core_line(place: u8, core: u8) -> Line
    ensures { result ≡ line_of (core_text place core) }
{
    let line = composing::labelled(b"record ", place as u64 + 1);
    let line = composing::with_labelled(line, b" core ", core as u64);
    composing::with_word(line, b"\n")
}

// A change that mending made to a sheet: the record, what was changed of it, its old and its new value.
pub fn change_line(change: Change) -> Line
    ensures { result ≡ line_of (change_text change) }
{
    composing::told(b"record ", change.place as u64, change)
}

// A change that mending made to what a text says: the task's line in the text in the place of the record.
pub fn line_change_line(line: u64, change: Change) -> Line
    ensures { result ≡ line_of (line_change_text line change) }
{
    composing::told(b"line ", line, change)
}

// A refusal's number, and the line and the column of a text at which it stands.
pub fn refused_at_line(refusal: u8, line: u64, column: u64) -> Line
    ensures { result ≡ line_of (refused_at_text refusal line column) }
{
    let refused = composing::labelled(b"refused ", refusal as u64);
    let refused = composing::with_labelled(refused, b" line ", line);
    let refused = composing::with_labelled(refused, b" column ", column);
    composing::with_word(refused, b"\n")
}

// A line with a task's name after it, before its newline; the line itself where there is no name, or no room for it.
pub fn titled_line(line: Line, name: &[u8]) -> Line
    ensures { result ≡ titled_line line name.now }
{
    if composing::takes_name(line.len, name.len()) {
        return composing::with_name(line, name);
    }
    line
}

// Puts a line's text into the output from a place on: where it ends, or the place itself where it has no room, and then nothing is put.
pub fn put_line(line: Line, out: &mut [u8], at: usize) -> usize
    ensures answer { result ≡ put_end line out.old at }
    ensures left { out.new ≡ put_leaves line out.old at }
{
    let size = line.len.min(88);
    if page::fits(size, out.len(), at) {
        page::copy(out, at, &line.bytes, size);
        return at + size;
    }
    at
}
