// The tables that rows about choices start from, by the figures of a row.
use crate::row::Row;
use sheet::Table;

// Sheet A's with its records in the opposite order.
const TABLE_BACKWARDS: &[u8] = b"B 3 9 1 1 35 35 1 1 3 3 20 20 2 2 4 4 12 12 3 3|";

// The lone task's with rubbish in each record past the count.
const TABLE_LONE_AND_RUBBISH: &[u8] =
    b"1 1 2 1 1 2 2 1 1 65535 0 1 0 200 255 65535 0 1 0 200 255 65535 0 1 0 200 255 \
    65535 0 1 0 200 255 65535 0 1 0 200 255 65535 0 1 0 200 255 65535 0 1 0 200 255|";

// Eight tasks whose deadlines leave few choices, at E = 15.
const TABLE_TIGHT: &[u8] = b"8 8 15 4 9 191 500 7 7 3 5 59 100 3 3 4 8 75 500 5 5 5 2 75 150 2 2 \
    2 1 29 500 4 4 4 8 105 300 1 1 8 4 66 150 8 8 9 2 43 500 6 6|";

// Eight tasks that pass under each of their 40,320 choices.
const TABLE_LIGHT: &[u8] =
    b"8 8 65535 1 1 65535 65535 5 1 1 1 65535 65535 8 1 1 1 65535 65535 1 1 1 1 65535 65535 3 1 \
    1 1 65535 65535 7 1 1 1 65535 65535 2 1 1 1 65535 65535 6 1 1 1 65535 65535 4 1|";

// A row's table: its first figure is 1 for Sheet A's, 2 for that backwards, 3 for the lone task's, 4 for that with rubbish past the count,
// 5 and 6 for those of eight tasks, few of whose choices and all of whose choices pass; those from the third on replace fields.
pub fn table(row: Row) -> Table {
    let base = match row.figure(1) {
        1 => rows::TABLE_A,
        2 => TABLE_BACKWARDS,
        3 => rows::TABLE_LONE,
        4 => TABLE_LONE_AND_RUBBISH,
        5 => TABLE_TIGHT,
        _ => TABLE_LIGHT,
    };
    row.table(base)
}
