// A line's cells: where they begin and end, what separates them, and each as a number or a name.
// Every call answers any bytes.
#![tactic(auto)]

ghost use Rattle.std.specs.Prelude.{◌≡◌};
ghost use Rattle.cells.specs.Cells.{cells_of, part_of, separator_of};
ghost use Rattle.cells.specs.Numbers.{number_of};
ghost use Rattle.cells.specs.Names.{column_of, setting_of, name_of, no_name};

mod kinds;
mod labels;
mod naming;
mod numbers;
mod spans;

// The cell that is being read: where it begins and ends so far, and whether a double quote is open in it.
#[derive(Clone, Copy)]
pub struct Span {
    pub start: usize,
    pub end: usize,
    pub quoted: bool,
}

// The first eight cells of a line: how many there are, where each begins and where it ends.
#[derive(Clone, Copy)]
pub struct Cells {
    pub count: usize,
    pub starts: [usize; 8],
    pub ends: [usize; 8],
}

// A cell as a number: 0 beside its value, or why it is none.
#[derive(Clone, Copy)]
pub struct Number {
    pub refusal: u8,
    pub value: u64,
}

// A column's name in small letters: what is being read of it (0 its letters, 1 a unit in brackets, 2 what stands after them), how many
// letters it has, 17 where it has more than sixteen, and these.
#[derive(Clone, Copy)]
pub struct Label {
    pub stage: u8,
    pub length: u8,
    pub bytes: [u8; 16],
}

// A task's name: its length and its bytes, zeros after them.
#[derive(Clone, Copy)]
pub struct Name {
    pub length: u8,
    pub bytes: [u8; 32],
}

// A task's name that is being read: its refusal or 0, whether the last byte was the first of two quotes, and the name so far.
#[derive(Clone, Copy)]
pub struct Spelling {
    pub refusal: u8,
    pub odd: bool,
    pub name: Name,
}

// A cell as a task's name: 0 beside it, or why it is none.
#[derive(Clone, Copy)]
pub struct Named {
    pub refusal: u8,
    pub name: Name,
}

// The cells of a line with a separator: 9, 59 or 44 for a tab, a semicolon or a comma, 32 for blanks, 0 for all that is loose.
pub fn split(line: &[u8], separator: u8) -> Cells
    ensures { result ≡ cells_of separator line.now }
{
    let mut cells = spans::no_cells();
    let mut span = spans::empty_at(0);
    for (at, &byte) in line.iter().enumerate() {
        cells = spans::cells_after(cells, separator, span, byte);
        span = spans::span_after(separator, span, byte, at);
    }
    spans::cells_at_end(cells, span)
}

// The bytes of a line from a place to another, as far as it has them.
pub fn part(line: &[u8], start: usize, end: usize) -> &[u8]
    ensures { result.now ≡ part_of line.now start end }
{
    let stop = end.min(line.len());
    let first = start.min(stop);
    &line[first..stop]
}

// The separator of a text whose first line of names or numbers this is.
pub fn separator_of(line: &[u8]) -> u8
    ensures { result ≡ separator_of line.now }
{
    if spans::has_outside(line, b'\t') {
        return b'\t';
    }
    if spans::has_outside(line, b';') {
        return b';';
    }
    if spans::has_outside(line, b',') {
        return b',';
    }
    b' '
}

// A cell as a number.
pub fn number_of(cell: &[u8]) -> Number
    ensures { result ≡ number_of cell.now }
{
    if !numbers::is_well_quoted(cell) {
        return numbers::not_number(42);
    }
    numbers::spelled(numbers::content_of(cell))
}

// The column that a cell names: 1 priority, 2 fault priority, 3 cost, 4 backup, 5 deadline, 6 period, 7 task, or 0.
pub fn column_of(cell: &[u8]) -> u8
    ensures { result ≡ column_of cell.now }
{
    labels::column_named(labels::label_of(cell))
}

// The setting that a word names: 1 interval, 2 round, 3 share, or 0.
pub fn setting_of(word: &[u8]) -> u8
    ensures { result ≡ setting_of word.now }
{
    labels::setting_named(labels::label_of(word))
}

// No name.
pub fn no_name() -> Name
    ensures { result ≡ no_name }
{
    Name {
        length: 0,
        bytes: [0u8; 32],
    }
}

// A cell as a task's name.
pub fn name_of(cell: &[u8]) -> Named
    ensures { result ≡ name_of cell.now }
{
    if !numbers::is_well_quoted(cell) {
        return Named::from(naming::misspelt(42));
    }
    let quoted = numbers::is_quoted(cell);
    Named::from(naming::spelled(quoted, numbers::content_of(cell)))
}
