// A table's text as other tools write it: with another separator, and its columns in another order, both drawn by the table's number.
use sheet::{Record, Table};
use std::io::{Cursor, Error, Write};

// The separator of a number.
fn separator(number: u32) -> char {
    match number % 4 {
        0 => '\t',
        1 => ';',
        2 => ',',
        _ => ' ',
    }
}

// The column that stands at a place: the six in a row that begins anywhere, turned round or not, two of them exchanged.
fn column(number: u32, place: u32) -> u32 {
    let turned = if number / 4 % 2 == 0 {
        place % 6
    } else {
        5 - place % 6
    };
    let moved = (turned % 6 + number / 8 % 6) % 6;
    let one = number / 48 % 6;
    let other = number / 288 % 6;
    if moved == one {
        return other;
    }
    if moved == other {
        return one;
    }
    moved
}

// The name of a column.
fn name(column: u32) -> char {
    match column {
        0 => 'p',
        1 => 'q',
        2 => 'C',
        3 => 'B',
        4 => 'D',
        _ => 'T',
    }
}

// The number of a record that stands in a column.
fn figure(task: &Record, column: u32) -> u16 {
    match column {
        0 => u16::from(task.priority),
        1 => u16::from(task.fault_priority),
        2 => task.cost,
        3 => task.backup,
        4 => task.deadline,
        _ => task.period,
    }
}

// Writes a line's six names.
fn write_names<W: Write>(out: &mut W, number: u32) -> Result<(), Error> {
    let separator = separator(number);
    for place in 0..6 {
        write!(out, "{}{separator}", name(column(number, place)))?;
    }
    writeln!(out)
}

// Writes a record's six numbers, each of five digits.
fn write_task<W: Write>(out: &mut W, task: &Record, number: u32) -> Result<(), Error> {
    let separator = separator(number);
    for place in 0..6 {
        write!(out, "{:05}{separator}", figure(task, column(number, place)))?;
    }
    writeln!(out)
}

// Writes the lines of the interval and, where the processor is shared, of round and share.
fn write_settings<W: Write>(out: &mut W, table: &Table) -> Result<(), Error> {
    writeln!(out, "{:05}", table.interval)?;
    if !sheet::is_whole(table.round, table.share) {
        writeln!(out, "{:05} {:05}", table.round, table.share)?;
    }
    Ok(())
}

// Writes the text of a table.
fn write<W: Write>(out: &mut W, table: &Table, number: u32) -> Result<(), Error> {
    write_settings(out, table)?;
    write_names(out, number)?;
    for task in table.records.iter().take(table.count as usize) {
        write_task(out, task, number)?;
    }
    Ok(())
}

// Puts the text of a table, or as much of it as there is room for: how many bytes it has.
pub fn put(out: &mut [u8], table: Table, number: u32) -> usize {
    let mut cursor = Cursor::new(out);
    let _ = write(&mut cursor, &table, number);
    cursor.position() as usize
}
