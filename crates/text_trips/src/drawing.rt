// Random good tables: every figure follows from the number of the table.
use sheet::{Record, Table};

// The number after another in a row that looks random.
fn next(number: u32) -> u32 {
    (u64::from(number) * 48271 % 2147483647) as u32
}

// The figure of a table that has a place among its figures.
fn drawn(number: u32, place: u32) -> u32 {
    next(next(next(number % 65536 * 64 + place % 64 + 1)))
}

// A figure from 1 to the most.
fn up_to(most: u16, figure: u32) -> u16 {
    (figure % u32::from(most.max(1))) as u16 + 1
}

// The same for a number of eight bits. Both are a line, and one over every type would need two bounds and a cast that can fail.
fn small_up_to(most: u8, figure: u32) -> u8 {
    (figure % u32::from(most.max(1))) as u8 + 1
}

// A record of a priority.
fn record(number: u32, place: u32, priority: u8) -> Record {
    let first = place % 8 * 8;
    let period = up_to(65535, drawn(number, first));
    let deadline = up_to(period, drawn(number, first + 1));
    Record {
        cost: up_to(deadline, drawn(number, first + 2)),
        backup: up_to(deadline, drawn(number, first + 3)),
        deadline,
        period,
        priority,
        fault_priority: small_up_to(priority, drawn(number, first + 4)),
    }
}

// A count's records, their priorities in a row that begins anywhere.
fn records(number: u32, count: u8) -> [Record; 8] {
    let first = drawn(number, 5) % 8;
    [0, 1, 2, 3, 4, 5, 6, 7].map(|place: u32| record(
        number,
        place,
        small_up_to(count, first + place % 8),
    ))
}

// The table of a number; every other one is of the second edition.
pub fn table(number: u32) -> Table {
    let count = small_up_to(8, drawn(number, 6));
    let interval = up_to(65535, drawn(number, 7));
    let records = records(number, count);
    let round = up_to(65534, drawn(number, 13));
    if number % 2 == 0 {
        return Table {
            count,
            interval,
            round: 1,
            share: 1,
            records,
        };
    }
    Table {
        count,
        interval,
        round: round % 65535 + 1,
        share: up_to(round, drawn(number, 14)),
        records,
    }
}
