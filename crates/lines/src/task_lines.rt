// A task's line.
ghost use Rattle.std.specs.Prelude.{◌≡◌};
ghost use Rattle.lines.specs.Tasks.{field_at, numbered, number_as, name_as, cell_as, cell_to, with_fault, with_deadline, filled_task, with_read, task_ended};

use crate::finding::Extent;
use crate::{Layout, Reading, Task, column_lines, refusing};
use cells::{Named, Number};

// The column of a line's cell.
fn field_at(layout: Layout, place: usize) -> u8
    ensures { result ≡ field_at layout place }
{
    layout.columns.get(place).copied().unwrap_or(0)
}

// A task with one number more.
fn numbered(task: Task, column: u8, value: u64) -> Task
    ensures { result ≡ numbered task column value }
{
    if (column == 0) | (6 < column) {
        return task;
    }
    let mut more = task;
    more.numbers[(column - 1) as usize] = value;
    more
}

// A cell as a number, or why it is none.
fn number_as(
    reading: Reading,
    number: u64,
    line: &[u8],
    column: u8,
    at: Extent,
    value: Number,
) -> Reading
    ensures { result ≡ number_as reading number line.now column at.start at.end value }
{
    if value.refusal != 0 {
        return refusing::fails(reading, number, line, at, value.refusal, column);
    }
    Reading {
        task: numbered(reading.task, column, value.value),
        ..reading
    }
}

// A cell as the task's name, or why it is none.
fn name_as(reading: Reading, number: u64, line: &[u8], at: Extent, named: Named) -> Reading
    ensures { result ≡ name_as reading number line.now at.start at.end named }
{
    if named.refusal != 0 {
        return refusing::fails(reading, number, line, at, named.refusal, 7);
    }
    let mut next = reading;
    next.task.name = named.name;
    next
}

// A cell in its column.
fn cell_as(reading: Reading, number: u64, line: &[u8], column: u8, at: Extent) -> Reading
    ensures { result ≡ cell_as reading number line.now column at.start at.end }
{
    if at.start == at.end {
        return refusing::fails(reading, number, line, at, 35, column);
    }
    if column == 7 {
        let named = cells::name_of(cells::part(line, at.start, at.end));
        return name_as(reading, number, line, at, named);
    }
    let value = cells::number_of(cells::part(line, at.start, at.end));
    number_as(reading, number, line, column, at, value)
}

// The cell at a place.
pub fn cell_to(reading: Reading, number: u64, line: &[u8], place: usize, at: Extent) -> Reading
    ensures { result ≡ cell_to reading number line.now place at.start at.end }
{
    if refusing::is_refused(reading) {
        return reading;
    }
    let layout = reading.layout;
    if layout.width as usize <= place {
        return refusing::fails(reading, number, line, at, 32, 0);
    }
    cell_as(reading, number, line, field_at(layout, place), at)
}

// The numbers with the fault priority filled in where it has no column.
fn with_fault(layout: Layout, numbers: [u64; 6]) -> [u64; 6]
    ensures { result ≡ with_fault layout numbers }
{
    if column_lines::has_column(layout, 2) {
        return numbers;
    }
    let mut filled = numbers;
    filled[1] = numbers[0];
    filled
}

// The numbers with the deadline filled in where it has no column.
fn with_deadline(layout: Layout, numbers: [u64; 6]) -> [u64; 6]
    ensures { result ≡ with_deadline layout numbers }
{
    if column_lines::has_column(layout, 5) {
        return numbers;
    }
    let mut filled = numbers;
    filled[4] = numbers[5];
    filled
}

// The task that was read, with what is filled in.
fn filled_task(layout: Layout, task: Task) -> Task
    ensures { result ≡ filled_task layout task }
{
    Task {
        numbers: with_deadline(layout, with_fault(layout, task.numbers)),
        ..task
    }
}

// The tasks with the one that was read.
fn with_read(reading: Reading) -> Reading
    ensures { result ≡ with_read reading }
{
    let count = reading.count;
    if 8 <= count {
        return reading;
    }
    let mut next = reading;
    next.tasks[count as usize] = filled_task(reading.layout, reading.task);
    next.count = count + 1;
    next
}

// The line's end.
pub fn task_ended(reading: Reading, number: u64, line: &[u8], count: usize) -> Reading
    ensures { result ≡ task_ended reading number line.now count }
{
    if refusing::is_refused(reading) {
        return reading;
    }
    let layout = reading.layout;
    if count < layout.width as usize {
        return refusing::fails_at_end(reading, number, line, 33, field_at(layout, count));
    }
    with_read(reading)
}
