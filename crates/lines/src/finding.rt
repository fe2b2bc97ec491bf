// Where a cell of a line stands, what stands there, and how a word begins.
ghost use Rattle.std.specs.Prelude.{◌≡◌};
ghost use Rattle.lines.specs.Troubles.{start_of, end_of, cell_of};
ghost use Rattle.lines.specs.Settings.{begins_number};

use cells::Cells;

// A part of a line: where it begins and where it ends. The line and its number go beside it: a struct that holds a reference has two values in
// each clause, so the clauses would be longer than the calls get shorter.
#[derive(Clone, Copy)]
pub struct Extent {
    pub start: usize,
    pub end: usize,
}

// Where a cell begins.
pub fn start_of(cells: Cells, place: usize) -> usize
    ensures { result ≡ start_of cells place }
{
    cells.starts.get(place).copied().unwrap_or(0)
}

// Where a cell begins and ends.
pub fn extent_of(cells: Cells, place: usize) -> Extent
    ensures start { result.start ≡ start_of cells place }
    ensures end { result.end ≡ end_of cells place }
{
    Extent {
        start: start_of(cells, place),
        end: cells.ends.get(place).copied().unwrap_or(0),
    }
}

// The bytes of a cell.
pub fn cell_of(line: &[u8], cells: Cells, place: usize) -> &[u8]
    ensures { result.now ≡ cell_of line.now cells place }
{
    let at = extent_of(cells, place);
    cells::part(line, at.start, at.end)
}

// Whether a word begins as a number does.
pub fn begins_number(word: &[u8]) -> bool
    ensures { result ≡ begins_number word.now }
{
    let first = word.first().copied().unwrap_or(0);
    first.is_ascii_digit() | (first == b'-') | (first == b'+') | (first == b'.')
}
