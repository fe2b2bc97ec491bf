// The sheets and tables that rows about sheets start from, by the figures of a row.
use crate::row::Row;
use sheet::Table;

// Sheet A of document 01, the header and each record on a line of its own.
pub const SHEET_A: &[u8] = b"\x30\x00\x09\
    \x00\x04\x00\x04\x00\x0C\x00\x0C\x33\
    \x00\x03\x00\x03\x00\x14\x00\x14\x22\
    \x00\x01\x00\x01\x00\x23\x00\x23\x11";

// A good sheet of eight tasks, some of whose numbers take both bytes.
const SHEET_EIGHT: &[u8] = b"\x80\x01\x2C\
    \x01\x01\x01\x10\x03\xE8\x07\xD0\x55\
    \x00\x02\x00\x03\x00\x04\x00\x05\x81\
    \x01\x00\x02\x00\x02\x00\x03\x00\x11\
    \x00\x07\x00\x06\x00\x08\x00\x08\x32\
    \xFF\xFF\xFF\xFF\xFF\xFF\xFF\xFF\x77\
    \x00\x01\x00\x01\x00\x01\x00\x01\x21\
    \x00\x09\x00\x09\x10\x00\x20\x00\x63\
    \x00\x01\x00\x02\x00\x03\x00\x04\x44";

// A lone task with C, B, D and T all 65,535, at E = 65,535.
const SHEET_LONE: &[u8] = b"\x10\xFF\xFF\
    \xFF\xFF\xFF\xFF\xFF\xFF\xFF\xFF\x11";

// Sheet A in the new edition, with a round of 20 and a share of 19.
const SHEET_SHARED: &[u8] = b"\x31\x00\x09\x00\x14\x00\x13\
    \x00\x04\x00\x04\x00\x0C\x00\x0C\x33\
    \x00\x03\x00\x03\x00\x14\x00\x14\x22\
    \x00\x01\x00\x01\x00\x23\x00\x23\x11";

// The table that the sheet of eight tasks holds.
const TABLE_EIGHT: &[u8] =
    b"8 8 300 257 272 1000 2000 5 5 2 3 4 5 8 1 256 512 512 768 1 1 7 6 8 8 3 2 \
    65535 65535 65535 65535 7 7 1 1 1 1 2 1 9 9 4096 8192 6 3 1 2 3 4 4 4|";

// A byte of a sheet by its number, 1 for Sheet A, 2 for eight tasks, 3 for the lone task, 4 for Sheet A in the new edition; 0 past the sheet's end.
fn byte(which: u64, place: usize) -> u8 {
    let sheet = match which {
        1 => SHEET_A,
        2 => SHEET_EIGHT,
        3 => SHEET_LONE,
        _ => SHEET_SHARED,
    };
    rows::byte(sheet, place)
}

// The byte of a row's sheet at a place: the sheet is its first figure, and a place, counted from 1, and the byte to put there are its fourth and fifth, and its sixth and seventh.
fn sheet_byte(row: Row, place: usize) -> u8 {
    let number = (place as u64).saturating_add(1);
    if row.figure(4) == number {
        return row.short(5);
    }
    if row.figure(6) == number {
        return row.short(7);
    }
    byte(row.figure(1), place)
}

// A row's sheet, filled up by zeros.
pub fn sheet(row: Row) -> [u8; 4096] {
    let mut bytes = [0u8; 4096];
    for (place, byte) in bytes.iter_mut().take(76).enumerate() {
        *byte = sheet_byte(row, place);
    }
    bytes
}

// A row's table: its first figure is 1 for Sheet A's, 2 for the same with rubbish past the count, 3 for eight tasks; those from the third on replace fields.
pub fn table(row: Row) -> Table {
    let base = match row.figure(1) {
        1 => rows::TABLE_A,
        2 => rows::TABLE_A_AND_RUBBISH,
        _ => TABLE_EIGHT,
    };
    row.table(base)
}
