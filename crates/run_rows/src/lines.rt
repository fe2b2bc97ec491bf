// Rows of printed lines, each kind at the ends of what it is given, and of putting a line: what is answered in each form. A row's figures are its call's arguments, in their order.
use crate::row::Row;
use analysis::{Entry, Outcome, Slack};
use mend::{Change, Field};
use report::{Line, Name, Saying};

// What each byte of an output holds before a line is put into it.
const FILLER: u8 = 0xEE;

// Says a text without the newline that ends it; where none does, it says that.
fn say_text(row: Row, at: Option<usize>, text: &[u8]) -> Option<usize> {
    let Some((last, rest)) = text.split_last() else {
        return row.say(at, b" no text");
    };
    let space = row.say(at, b" ");
    let end = row.say(space, rest);
    if *last == b'\n' {
        end
    } else {
        row.say(end, b" and no newline")
    }
}

// Says a line.
fn say_line(row: Row, at: Option<usize>, line: Line) -> Option<usize> {
    let bytes = line.bytes;
    say_text(row, at, rows::first(&bytes, line.len))
}

// The name of a number.
fn name(number: u64) -> Name {
    match number {
        0 => Name::Interval,
        1 => Name::Least,
        2 => Name::End,
        3 => Name::Refused,
        4 => Name::Attempts,
        5 => Name::Backups,
        6 => Name::Idle,
        7 => Name::Released,
        8 => Name::Finished,
        9 => Name::Missed,
        10 => Name::Unfinished,
        11 => Name::Differs,
        _ => Name::FitsNone,
    }
}

// The line of a name, the first figure, and a number.
fn named(row: Row, at: Option<usize>) -> Option<usize> {
    let name = name(row.figure(1));
    say_line(row, at, report::named_line(name, row.figure(2)))
}

// The saying of a number.
fn saying(number: u64) -> Saying {
    match number {
        0 => Saying::NoInterval,
        1 => Saying::Accepted,
        2 => Saying::LoadInUse,
        _ => Saying::LoadCandidate,
    }
}

// The line of a saying.
fn said(row: Row, at: Option<usize>) -> Option<usize> {
    let saying = saying(row.figure(1));
    say_line(row, at, report::saying_line(saying))
}

// The line of a task with an outcome and a slack, its place the first figure.
fn say_task(row: Row, at: Option<usize>, outcome: Outcome, slack: Slack) -> Option<usize> {
    let entry = Entry {
        deadline: 0,
        outcome,
        slack,
    };
    say_line(row, at, report::task_line(row.short(1), entry))
}

// The line of a task on time.
fn on_time(row: Row, at: Option<usize>) -> Option<usize> {
    let outcome = Outcome::OnTime(row.wide(2));
    say_task(row, at, outcome, Slack::Figure(0))
}

// The line of a task that is late without a figure.
fn late(row: Row, at: Option<usize>) -> Option<usize> {
    say_task(row, at, Outcome::Late, Slack::NoFigure)
}

// The first number less the second.
fn difference(first: u16, second: u16) -> i32 {
    first as i32 - second as i32
}

// The line of a task that is late with a slack, the second figure less the third.
fn late_by(row: Row, at: Option<usize>) -> Option<usize> {
    let ticks = difference(row.wide(2), row.wide(3));
    say_task(row, at, Outcome::Late, Slack::Figure(ticks))
}

// The line of a choice: the count and eight entries.
fn choice(row: Row, at: Option<usize>) -> Option<usize> {
    let choice = [
        row.short(2),
        row.short(3),
        row.short(4),
        row.short(5),
        row.short(6),
        row.short(7),
        row.short(8),
        row.short(9),
    ];
    say_line(row, at, report::choice_line(row.short(1), choice))
}

// The line of a place and a core.
fn core(row: Row, at: Option<usize>) -> Option<usize> {
    say_line(row, at, report::core_line(row.short(1), row.short(2)))
}

// The field of a number.
fn field(number: u64) -> Field {
    match number {
        0 => Field::Length,
        1 => Field::Deadline,
        _ => Field::FaultPriority,
    }
}

// The line of a change: the place, the field, the old and the new value.
fn change(row: Row, at: Option<usize>) -> Option<usize> {
    let change = Change {
        place: row.short(1),
        field: field(row.figure(2)),
        old: row.figure(3),
        new: row.figure(4),
    };
    say_line(row, at, report::change_line(change))
}

// The line of a refusal with a line and a column.
fn refused_at(row: Row, at: Option<usize>) -> Option<usize> {
    let line = row.figure(2);
    let column = row.figure(3);
    say_line(row, at, report::refused_at_line(row.short(1), line, column))
}

// Puts a line at a place of the first bytes of an output.
fn put_into(line: Line, output: &mut [u8], length: usize, place: usize) -> usize {
    let room = length.min(output.len());
    report::put_line(line, &mut output[..room], place)
}

// The line of so many choices put at a place of the first so many bytes of twelve: where it ends, and all twelve bytes after that.
fn put(row: Row, at: Option<usize>) -> Option<usize> {
    let mut output = [FILLER; 12];
    let line = report::named_line(Name::End, row.figure(1));
    let place = row.size(2);
    let length = row.size(3);
    let ended = put_into(line, &mut output, length, place);
    let end = row.say_spaced(at, ended as u64);
    row.say_bytes(row.say(end, b", bytes"), &output)
}

// The answer of a form of row.
pub fn answer(form: u8, row: Row, at: Option<usize>) -> Option<usize> {
    match form {
        b'n' => named(row, at),
        b'w' => said(row, at),
        b't' => on_time(row, at),
        b'l' => late(row, at),
        b's' => late_by(row, at),
        b'p' => choice(row, at),
        b'c' => core(row, at),
        b'm' => change(row, at),
        b'a' => refused_at(row, at),
        b'u' => put(row, at),
        _ => None,
    }
}
