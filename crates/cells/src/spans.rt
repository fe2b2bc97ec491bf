// A line cut into cells, byte by byte.
ghost use Rattle.std.specs.Prelude.{◌≡◌, false, ◌+◌, ◌<◌};
ghost use Rattle.cells.specs.Cells.{empty_at, is_empty, ends_cell, grown, within, span_after, no_cells, with_cell, cells_after, cells_at_end, has_outside};

use crate::{Cells, Span, kinds};

// No byte of a cell yet.
pub fn empty_at(at: usize) -> Span
    ensures { result ≡ empty_at at }
{
    Span {
        start: at,
        end: at,
        quoted: false,
    }
}

// Whether no byte of a cell is read yet.
fn is_empty(span: Span) -> bool
    ensures { result ≡ is_empty span }
{
    span.start == span.end
}

// Whether a byte ends the cell.
fn ends_cell(separator: u8, span: Span, byte: u8) -> bool
    ensures { result ≡ ends_cell separator span byte }
{
    !span.quoted & kinds::separates(separator, byte)
}

// The cell with a byte of its own.
fn grown(span: Span, byte: u8, at: usize) -> Span
    requires { at < 18446744073709551615 }
    ensures { result ≡ grown span byte at }
{
    let quoted = kinds::turned(span.quoted, byte);
    if is_empty(span) {
        return Span {
            start: at,
            end: at + 1,
            quoted,
        };
    }
    Span {
        end: at + 1,
        quoted,
        ..span
    }
}

// The cell after a byte that does not end it.
fn within(span: Span, byte: u8, at: usize) -> Span
    requires { at < 18446744073709551615 }
    ensures { result ≡ within span byte at }
{
    if kinds::is_blank(byte) & !span.quoted {
        if is_empty(span) {
            return empty_at(at + 1);
        }
        return span;
    }
    grown(span, byte, at)
}

// The cell that is being read after a byte.
pub fn span_after(separator: u8, span: Span, byte: u8, at: usize) -> Span
    requires { at < 18446744073709551615 }
    ensures { result ≡ span_after separator span byte at }
{
    if ends_cell(separator, span, byte) {
        return empty_at(at + 1);
    }
    within(span, byte, at)
}

// No cells yet.
pub fn no_cells() -> Cells
    ensures { result ≡ no_cells }
{
    Cells {
        count: 0,
        starts: [0usize; 8],
        ends: [0usize; 8],
    }
}

// One cell more; eight are kept.
fn with_cell(cells: Cells, span: Span) -> Cells
    ensures { result ≡ with_cell cells span }
{
    let count = cells.count;
    if 8 <= count {
        return cells;
    }
    let mut more = cells;
    more.starts[count] = span.start;
    more.ends[count] = span.end;
    more.count = count + 1;
    more
}

// The cells after a byte.
pub fn cells_after(cells: Cells, separator: u8, span: Span, byte: u8) -> Cells
    ensures { result ≡ cells_after cells separator span byte }
{
    if ends_cell(separator, span, byte) & !(kinds::runs(separator) & is_empty(span)) {
        return with_cell(cells, span);
    }
    cells
}

// The cells at the line's end.
pub fn cells_at_end(cells: Cells, span: Span) -> Cells
    ensures { result ≡ cells_at_end cells span }
{
    if is_empty(span) {
        return cells;
    }
    with_cell(cells, span)
}

// Whether a line has a byte outside quotes.
pub fn has_outside(line: &[u8], wanted: u8) -> bool
    ensures { result ≡ has_outside wanted false line.now }
{
    let mut quoted = false;
    for &byte in line {
        if !quoted & (byte == wanted) {
            return true;
        }
        quoted = kinds::turned(quoted, byte);
    }
    false
}
