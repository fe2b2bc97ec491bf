// A line at its end, and what a text is understood as at its end.
ghost use Rattle.std.specs.Prelude.{◌≡◌};
ghost use Rattle.lines.specs.Answers.{has_mark, unmarked, content_taken, filled_in, no_figures, figures_of, ended_at, answered};

use crate::{
    Figures, Layout, Reading, Understood, column_lines, line_kinds, refusing, setting_lines,
};

// Whether a line begins with a byte order mark.
fn has_mark(line: &[u8]) -> bool
    ensures { result ≡ has_mark line.now }
{
    line.starts_with(&[239, 187, 191])
}

// The first line without its byte order mark, and any other line.
pub fn unmarked(number: u64, line: &[u8]) -> &[u8]
    ensures { result.now ≡ unmarked number line.now }
{
    if (number == 1) & has_mark(line) {
        return cells::part(line, 3, line.len());
    }
    line
}

// A line at its end: too long, or read.
pub fn content_taken(reading: Reading, number: u64, line: &[u8], over: bool) -> Reading
    ensures { result ≡ content_taken reading number line.now over }
{
    if refusing::is_refused(reading) {
        return reading;
    }
    if over {
        return refusing::fails_at_end(reading, number, line, 43, 0);
    }
    line_kinds::line_read(reading, number, line)
}

// Which columns were filled in.
fn filled_in(layout: Layout) -> u8
    ensures { result ≡ filled_in layout }
{
    let faults = u8::from(!column_lines::has_column(layout, 2));
    let deadlines = u8::from(!column_lines::has_column(layout, 5));
    faults + 2 * deadlines
}

// No figures.
fn no_figures() -> Figures
    ensures { result ≡ no_figures }
{
    Figures {
        count: 0,
        interval: 0,
        round: 0,
        share: 0,
        filled: 0,
        tasks: [refusing::task_at(0); 8],
    }
}

// The figures of a text that is understood.
fn figures_of(reading: Reading) -> Figures
    ensures { result ≡ figures_of reading }
{
    let values = reading.settings.values;
    let tasks = reading.tasks;
    Figures {
        count: reading.count,
        interval: values[1],
        round: values[2],
        share: values[3],
        filled: filled_in(reading.layout),
        tasks,
    }
}

// What is read at the text's end.
pub fn ended(reading: Reading, number: u64, line: &[u8]) -> Reading
    ensures { result ≡ ended_at reading number line.now }
{
    if refusing::is_refused(reading) | setting_lines::is_given(reading.settings, 1) {
        return reading;
    }
    refusing::fails_at_end(reading, number, line, 33, 0)
}

// The figures, or what is not understood.
pub fn answered(reading: Reading) -> Understood
    ensures { result ≡ answered reading }
{
    if refusing::is_refused(reading) {
        return Understood {
            trouble: reading.trouble,
            figures: no_figures(),
        };
    }
    Understood {
        trouble: refusing::no_trouble(),
        figures: figures_of(reading),
    }
}
