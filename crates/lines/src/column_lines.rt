// The columns of a text.
ghost use Rattle.std.specs.Prelude.{◌≡◌, ◌==◌, cond, Some, None};
ghost use Rattle.lines.specs.Columns.{plain_layout, named_layout, has_column, with_column, column_as, column_to, missing_column, header_ended};

use crate::finding::Extent;
use crate::{Layout, Reading, refusing};

// The columns in their own order.
pub fn plain_layout(separator: u8) -> Layout
    ensures { result ≡ plain_layout separator }
{
    Layout {
        separator,
        width: 6,
        columns: [1, 2, 3, 4, 5, 6, 0, 0],
        given: [false, true, true, true, true, true, true, false],
    }
}

// A header of which no name is read yet.
pub fn named_layout(separator: u8) -> Layout
    ensures { result ≡ named_layout separator }
{
    Layout {
        separator,
        width: 0,
        columns: [0u8; 8],
        given: [false; 8],
    }
}

// Whether there is a column.
pub fn has_column(layout: Layout, column: u8) -> bool
    ensures { result ≡ has_column layout column }
{
    layout.given.get(column as usize).copied().unwrap_or(false)
}

// One column more.
fn with_column(layout: Layout, column: u8) -> Layout
    ensures { result ≡ with_column layout column }
{
    let width = layout.width;
    if (8 <= width) | (8 <= column) {
        return layout;
    }
    let mut wider = layout;
    wider.columns[width as usize] = column;
    wider.given[column as usize] = true;
    wider.width = width + 1;
    wider
}

// A column's name.
fn column_as(reading: Reading, number: u64, line: &[u8], at: Extent, column: u8) -> Reading
    ensures { result ≡ column_as reading number line.now at.start at.end column }
{
    if column == 0 {
        return refusing::fails(reading, number, line, at, 38, 0);
    }
    if has_column(reading.layout, column) {
        return refusing::fails(reading, number, line, at, 39, column);
    }
    Reading {
        layout: with_column(reading.layout, column),
        ..reading
    }
}

// A cell of the header line.
pub fn column_to(reading: Reading, number: u64, line: &[u8], at: Extent) -> Reading
    ensures { result ≡ column_to reading number line.now at.start at.end }
{
    if refusing::is_refused(reading) {
        return reading;
    }
    if at.start == at.end {
        return refusing::fails(reading, number, line, at, 35, 0);
    }
    let column = cells::column_of(cells::part(line, at.start, at.end));
    column_as(reading, number, line, at, column)
}

// The first column that must be there and is not.
fn missing_column(layout: Layout) -> Option<u8>
    ensures { result ≡ cond (missing_column layout == 0) None (Some (missing_column layout)) }
{
    [1, 3, 4, 6]
        .iter()
        .copied()
        .find(|column| !has_column(layout, *column))
}

// The header's end.
pub fn header_ended(reading: Reading, number: u64, line: &[u8]) -> Reading
    ensures { result ≡ header_ended reading number line.now }
{
    if refusing::is_refused(reading) {
        return reading;
    }
    match missing_column(reading.layout) {
        Some(missing) => refusing::fails_at_end(reading, number, line, 40, missing),
        None => reading,
    }
}
