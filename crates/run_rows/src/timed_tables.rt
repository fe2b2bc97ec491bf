// The tables that rows about times start from, by the figures of a row.
use crate::row::Row;
use sheet::Table;

// Eight tasks with C and B 1, the largest deadlines and periods, and p and q from 1 to 8, at E = 2.
const TABLE_EIGHT: &[u8] =
    b"8 8 2 1 1 65535 65535 1 1 1 1 65535 65535 2 2 1 1 65535 65535 3 3 1 1 65535 65535 4 4 \
    1 1 65535 65535 5 5 1 1 65535 65535 6 6 1 1 65535 65535 7 7 1 1 65535 65535 8 8|";

// The same with C and B 65,535, at E = 65,535.
const TABLE_HEAVY: &[u8] =
    b"8 8 65535 65535 65535 65535 65535 1 1 65535 65535 65535 65535 2 2 65535 65535 65535 65535 3 3 65535 65535 65535 65535 4 4 \
    65535 65535 65535 65535 5 5 65535 65535 65535 65535 6 6 65535 65535 65535 65535 7 7 65535 65535 65535 65535 8 8|";

// A row's table: its first figure is 1 for Sheet A's, 2 for the same with rubbish past the count, 3 for the lone task's, 4 and 5 for those of eight tasks;
// those from the third on replace fields.
pub fn table(row: Row) -> Table {
    let base = match row.figure(1) {
        1 => rows::TABLE_A,
        2 => rows::TABLE_A_AND_RUBBISH,
        3 => rows::TABLE_LONE,
        4 => TABLE_EIGHT,
        _ => TABLE_HEAVY,
    };
    row.table(base)
}
