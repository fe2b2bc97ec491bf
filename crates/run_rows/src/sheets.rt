// Rows about sheets: what is answered in each form.
// A row of a sheet has the figures: the sheet, its length, what is asked of it, and what is put into it (sheet_samples::sheet). A row of a table has:
// the table, the length that it is written into, and what is replaced in it (sheet_samples::table).
use crate::row::Row;
use crate::sheet_samples;
use crate::sheet_samples::SHEET_A;
use places::refusal;
use places::refusal::Refusal;
use sheet::{Record, Table};

// What each byte of a buffer holds before a table is written into it: a byte that Sheet A does not have.
const FILLER: u8 = 0xEE;

// A byte as a number to say.
fn wide(value: u8) -> u64 {
    value as u64
}

// The refusal of a sheet.
fn sheet_judged(row: Row, at: Option<usize>) -> Option<usize> {
    let bytes = sheet_samples::sheet(row);
    let sheet = rows::first(&bytes, row.size(2));
    row.say_spaced(at, wide(refusal::told(sheet::judge(sheet))))
}

// The refusal of a table.
fn table_judged(row: Row, at: Option<usize>) -> Option<usize> {
    let refused = sheet::judge_table(sheet_samples::table(row));
    row.say_spaced(at, wide(refusal::told(refused)))
}

// The refusal of a place of a sheet, which is asked for.
fn place_judged(row: Row, at: Option<usize>) -> Option<usize> {
    let bytes = sheet_samples::sheet(row);
    let sheet = rows::first(&bytes, row.size(2));
    let place = row.size(3);
    row.say_spaced(at, wide(refusal::told(sheet::judge_place(sheet, place))))
}

// The part of a sheet at a place, which is asked for.
fn part(row: Row, at: Option<usize>) -> Option<usize> {
    let bytes = sheet_samples::sheet(row);
    let sheet = rows::first(&bytes, row.size(2));
    let place = row.size(3);
    say_list(row, at, sheet::record_part(sheet, place))
}

// Says how many bytes there are, and each of them.
fn say_list(row: Row, at: Option<usize>, bytes: &[u8]) -> Option<usize> {
    let counted = row.say_spaced(at, bytes.len() as u64);
    let named = row.say(counted, b" bytes");
    row.say_bytes(named, bytes)
}

// A field of what is read of a sheet, by its number, which is asked for.
fn read(row: Row, at: Option<usize>) -> Option<usize> {
    let bytes = sheet_samples::sheet(row);
    let sheet = rows::first(&bytes, row.size(2));
    say_read(row, at, sheet::read(sheet), row.figure(3))
}

// The same of what is read of a table that was written into thirty-four bytes.
fn written_and_read(row: Row, at: Option<usize>) -> Option<usize> {
    let mut written = [0u8; 34];
    let size = sheet::write(sheet_samples::table(row), &mut written).unwrap_or(0);
    say_read(
        row,
        at,
        sheet::read(rows::first(&written, size)),
        row.figure(2),
    )
}

// Says a field of what was read, of zeros where it was refused: 0 for the refusal, 1 for the count, 2 for the interval, from 3 on the records, 11 for the round and 12 for the share.
fn say_read(
    row: Row,
    at: Option<usize>,
    reading: Result<Table, Refusal>,
    field: u64,
) -> Option<usize> {
    let (number, table) = match reading {
        Ok(table) => (0, table),
        Err(refusal) => (refusal.number(), sheet::no_table()),
    };
    let records = table.records;
    match field {
        0 => row.say_spaced(at, wide(number)),
        1 => row.say_spaced(at, wide(table.count)),
        2 => row.say_spaced(at, table.interval as u64),
        11 => row.say_spaced(at, table.round as u64),
        12 => row.say_spaced(at, table.share as u64),
        _ => say_record(row, at, records[((field % 8 + 5) % 8) as usize]),
    }
}

// Says a record's six fields.
fn say_record(row: Row, at: Option<usize>, task: Record) -> Option<usize> {
    let at = row.say_spaced(at, task.cost as u64);
    let at = row.say_spaced(at, task.backup as u64);
    let at = row.say_spaced(at, task.deadline as u64);
    let at = row.say_spaced(at, task.period as u64);
    let at = row.say_spaced(at, wide(task.priority));
    row.say_spaced(at, wide(task.fault_priority))
}

// What is written, into as many bytes, of what is read of a sheet.
fn read_and_written(row: Row, at: Option<usize>) -> Option<usize> {
    let bytes = sheet_samples::sheet(row);
    let sheet = rows::first(&bytes, row.size(2));
    let mut buffer = [0u8; 79];
    let size = match sheet::read(sheet) {
        Ok(table) => sheet::write(table, &mut buffer).unwrap_or(0),
        Err(_) => 0,
    };
    say_list(row, at, rows::first(&buffer, size))
}

// The refusal and the number of bytes of writing a table into the first bytes of a buffer of forty, so many as the second figure says;
// and that a byte is astray, where the bytes written are not Sheet A's first or another byte of the buffer changed.
fn written(row: Row, at: Option<usize>) -> Option<usize> {
    let mut buffer = [FILLER; 40];
    let length = row.size(2);
    let table = sheet_samples::table(row);
    let answer = if length <= 40 {
        sheet::write(table, &mut buffer[0..length])
    } else {
        sheet::write(table, &mut buffer)
    };
    let (number, size) = match answer {
        Ok(size) => (0, size),
        Err(refusal) => (refusal.number(), 0),
    };
    let refused = row.say_spaced(at, wide(number));
    let end = row.say_spaced(refused, size as u64);
    if is_astray(buffer, size) {
        row.say(end, b", a byte astray")
    } else {
        end
    }
}

// What a buffer is to hold at a place after so many bytes of Sheet A were written.
fn left(written: usize, place: usize) -> u8 {
    if place < written {
        rows::byte(SHEET_A, place)
    } else {
        FILLER
    }
}

// Whether a buffer differs from that at some place.
fn is_astray(buffer: [u8; 40], written: usize) -> bool {
    let mut bytes = buffer.iter().enumerate();
    bytes.any(|(place, byte)| *byte != left(written, place))
}

// The answer of a form of row.
pub fn answer(form: u8, row: Row, at: Option<usize>) -> Option<usize> {
    match form {
        b's' => sheet_judged(row, at),
        b't' => table_judged(row, at),
        b'r' => read(row, at),
        b'b' => written_and_read(row, at),
        b'a' => read_and_written(row, at),
        b'w' => written(row, at),
        b'p' => place_judged(row, at),
        b'q' => part(row, at),
        _ => None,
    }
}
