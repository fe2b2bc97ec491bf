// What is not understood of a text in words: what stands there, where, and what would be right.
use crate::quoting;
use intake::explanation::say;
use lines::Trouble;

// Writes a column's name.
fn say_column(field: u8) {
    match field {
        1 => say(b"priority"),
        2 => say(b"fault priority"),
        3 => say(b"cost"),
        4 => say(b"backup"),
        5 => say(b"deadline"),
        6 => say(b"period"),
        7 => say(b"task"),
        _ => say(b"number"),
    }
}

// Writes where a trouble is: the input, line and column, the column's name and the task's where there are such.
fn say_place(input: &[u8], trouble: Trouble) {
    say(b"desk: ");
    quoting::say_input(input);
    say(b": line ");
    quoting::say_number(trouble.line);
    say(b", column ");
    quoting::say_number(trouble.column);
    if trouble.field != 0 {
        say(b", ");
        say_column(trouble.field);
    }
    if trouble.name.length != 0 {
        say(b" of ");
        quoting::say_task(trouble.name);
    }
    say(b": ");
}

// Writes why a cell is no number for no other reason: a name's control character, a unit beside it, or no digits.
fn say_no_number(trouble: Trouble) {
    if trouble.field == 7 {
        say(b" has a control character, and no task's name may");
        return;
    }
    if trouble.excerpt.bytes[0].is_ascii_digit() {
        say(b" is no number: it is digits alone, and a unit stands in the header, as in cost (us)");
        return;
    }
    say(b" is no number: a number is digits alone");
}

// Writes what is wrong with an empty cell, and where its column may be left out.
fn say_empty(field: u8) {
    say(b"the cell is empty, and a number must stand in it");
    if field == 2 {
        say(b"; without the column each fault priority is the task's own");
    }
    if field == 5 {
        say(b"; without the column each deadline is the period");
    }
}

// Writes what is wrong with a cell.
fn say_cell_rule(trouble: Trouble) {
    match trouble.refusal {
        30 => say_no_number(trouble),
        31 => say(b" is above 18446744073709551615, the largest number that is read"),
        32 => say(b" is one cell too many: there is one for each column, and without a header six"),
        36 => say(b" is no whole number: ticks are whole, so give every time in a finer unit"),
        37 => say(b" has a minus sign, and no number of a sheet is below 0"),
        38 => say(
            b" is no column's name; these are priority or p, fault priority, fault or q, cost or c, backup or b, deadline or d, period or t, task or name",
        ),
        39 => say(b" names this column a second time, and each may stand once"),
        41 => say(b".. has more than 32 bytes, the most that a task's name has"),
        42 => say(
            b" has quotes that are not closed, or something beside them; a quote within quotes is written twice",
        ),
        _ => say(b" gives this setting a second time, and each may stand once"),
    }
}

// Writes what is missing: a cell of a task's line, or the interval, before a line or at the end.
fn say_missing(trouble: Trouble) {
    if trouble.field != 0 {
        say(b"the line ends, and its ");
        say_column(trouble.field);
        say(b" is missing: there is a cell for each column, and without a header six");
        return;
    }
    say(
        b"the fault interval is missing: a line before the columns and the tasks gives it, as interval 300",
    );
}

// Writes what is wrong where nothing is to be quoted.
fn say_line_rule(trouble: Trouble) {
    match trouble.refusal {
        33 => say_missing(trouble),
        34 => say(b"this is a ninth task, and a sheet has eight at most"),
        35 => say_empty(trouble.field),
        40 => {
            say(b"the header ends, and names no column ");
            say_column(trouble.field);
            say(b": priority, cost, backup and period must be there");
        }
        _ => say(b"the line has more than 512 bytes before its comment, and none may"),
    }
}

// Whether a rule is told without what stands at its place.
fn is_of_the_line(refusal: u8) -> bool {
    matches!(refusal, 33 | 34 | 35 | 40 | 43)
}

// Prints what is not understood of an input.
pub fn print(input: &[u8], trouble: Trouble) {
    say_place(input, trouble);
    if is_of_the_line(trouble.refusal) {
        say_line_rule(trouble);
    } else {
        quoting::say_excerpt(trouble.excerpt);
        say_cell_rule(trouble);
    }
    say(b"\n");
}
