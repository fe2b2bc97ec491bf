// A line put together: a byte, a word, a number or a response after what it holds, where there is room.
ghost use Rattle.std.specs.Prelude.{◌≡◌, [], ◌∷◌, ◌++◌, ◌+◌, ◌≤◌, ◌<◌, length, nat_abs};
ghost use Rattle.report.specs.Words.{space, newline};
ghost use Rattle.report.specs.Decimal.{digit, decimal, signed};
ghost use Rattle.report.specs.Texts.{line_of, late_text, outcome_text, changed_text, told_text};
ghost use Rattle.report.specs.Putting.{Room, put};
ghost use Rattle.report.specs.Titles.{takes_name, opened_line};

use crate::{Line, page};
use analysis::{Outcome, Slack};
use mend::{Change, Field};

// One byte more.
fn with_byte(line: Line, byte: u8) -> Line
    requires { Room line 1 }
    ensures { result ≡ put line (byte ∷ []) }
{
    let mut longer = line;
    longer.bytes[line.len] = byte;
    longer.len = line.len + 1;
    longer
}

// A word's bytes.
pub fn with_word(line: Line, word: &[u8]) -> Line
    requires { Room line (length word.now) }
    ensures { result ≡ put line word.now }
{
    let end = line.len + word.len();
    let mut longer = line;
    longer.bytes[line.len..end].copy_from_slice(word);
    longer.len = end;
    longer
}

// A line that begins with a word.
pub fn begun(word: &[u8]) -> Line
    requires { length word.now ≤ 88 }
    ensures { result ≡ line_of word.now }
{
    let line = Line {
        bytes: [0u8; 88],
        len: 0,
    };
    with_word(line, word)
}

// A number below ten as its digit.
fn with_digit(line: Line, number: u64) -> Line
    requires digit { number < 10 }
    requires room { Room line 1 }
    ensures { result ≡ put line (digit number ∷ []) }
{
    with_byte(line, b'0' + number as u8)
}

// A number in decimal: the digits before the last one, and then that.
pub fn with_number(line: Line, number: u64) -> Line
    requires { Room line (length (decimal number)) }
    ensures { result ≡ put line (decimal number) }
{
    if number < 10 {
        return with_digit(line, number);
    }
    with_digit(with_number(line, number / 10), number % 10)
}

// A word and a number after it.
pub fn with_labelled(line: Line, word: &[u8], number: u64) -> Line
    requires { Room line (length word.now + 20) }
    ensures answer { result ≡ put line (word.now ++ decimal number) }
    ensures bounded { result.len ≤ line.len + (length word.now + 20) }
{
    with_number(with_word(line, word), number)
}

// A line that begins with a word and a number.
pub fn labelled(word: &[u8], number: u64) -> Line
    requires { length word.now ≤ 19 }
    ensures answer { result ≡ line_of (word.now ++ decimal number) }
    ensures bounded { result.len ≤ length word.now + 20 }
{
    with_number(begun(word), number)
}

// A whole line of a word and a number.
pub fn numbered(word: &[u8], number: u64) -> Line
    requires { length word.now ≤ 19 }
    ensures { result ≡ line_of (word.now ++ decimal number ++ newline) }
{
    with_word(labelled(word, number), b"\n")
}

// How far a number is from 0.
fn magnitude(number: i32) -> u64
    ensures answer { result ≡ nat_abs number }
    ensures bounded { result ≤ 2147483648 }
{
    u64::from(number.unsigned_abs())
}

// A number in decimal, after a minus sign if it is negative.
fn with_signed(line: Line, number: i32) -> Line
    requires { Room line 11 }
    ensures answer { result ≡ put line (signed number) }
    ensures bounded { result.len ≤ line.len + 11 }
{
    if number < 0 {
        return with_number(with_byte(line, b'-'), magnitude(number));
    }
    with_number(line, number as u64)
}

// The word late, and after it the slack where there is one.
fn with_late(line: Line, slack: Slack) -> Line
    requires { Room line 16 }
    ensures answer { result ≡ put line (late_text slack) }
    ensures bounded { result.len ≤ line.len + 16 }
{
    match slack {
        Slack::Figure(ticks) => with_signed(with_word(line, b"late "), ticks),
        Slack::NoFigure => with_word(line, b"late"),
    }
}

// A response, or that it is late and by how much.
pub fn with_outcome(line: Line, outcome: Outcome, slack: Slack) -> Line
    requires { Room line 16 }
    ensures answer { result ≡ put line (outcome_text outcome slack) }
    ensures bounded { result.len ≤ line.len + 16 }
{
    match outcome {
        Outcome::OnTime(time) => with_number(line, time as u64),
        Outcome::Late => with_late(line, slack),
    }
}

// An entry of a choice, after a space.
pub fn with_entry(line: Line, entry: u8) -> Line
    requires { Room line 4 }
    ensures answer { result ≡ put line (space ++ decimal entry) }
    ensures bounded { result.len ≤ line.len + 4 }
{
    with_number(with_word(line, b" "), entry as u64)
}

// What a change is made to: the length, or a field of what a word and a number name.
fn changed(word: &[u8], number: u64, field: Field) -> Line
    requires { length word.now ≤ 7 }
    ensures answer { result ≡ line_of (changed_text word.now number field) }
    ensures bounded { result.len ≤ 42 }
{
    match field {
        Field::Length => begun(b"length"),
        Field::Deadline => with_word(labelled(word, number), b" deadline"),
        Field::FaultPriority => with_word(labelled(word, number), b" fault priority"),
    }
}

// A whole line of a change: what was changed, its old and its new value.
pub fn told(word: &[u8], number: u64, change: Change) -> Line
    requires { length word.now ≤ 7 }
    ensures { result ≡ line_of (told_text word.now number change) }
{
    let line = changed(word, number, change.field);
    let line = with_labelled(line, b" ", change.old);
    let line = with_labelled(line, b" ", change.new);
    with_word(line, b"\n")
}

// Whether a line of a length takes a name of a size.
pub fn takes_name(len: usize, size: usize) -> bool
    ensures { result ≡ takes_name len size }
{
    (len != 0) & ((size != 0) & page::fits(size, 87, len))
}

// A space and a name before the newline.
pub fn with_name(line: Line, name: &[u8]) -> Line
    requires filled { 0 < line.len }
    requires room { line.len + length name.now ≤ 87 }
    ensures { result ≡ put (opened_line line) ((space ++ name.now) ++ newline) }
{
    let opened = Line {
        len: line.len - 1,
        ..line
    };
    let named = with_word(with_word(opened, b" "), name);
    with_word(named, b"\n")
}
