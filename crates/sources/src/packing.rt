// The bytes of a table as a sheet has them, whatever rules it breaks: what is to be mended has no other sheet.
use intake::sheets::Given;
use sheet::{Record, Table};

// Twice four bits in a byte.
fn halves(high: u8, low: u8) -> u8 {
    (high % 16) * 16 + low % 16
}

// A record's nine bytes.
fn record_bytes(record: &Record) -> [u8; 9] {
    let [cost, cost_low] = record.cost.to_be_bytes();
    let [backup, backup_low] = record.backup.to_be_bytes();
    let [deadline, deadline_low] = record.deadline.to_be_bytes();
    let [period, period_low] = record.period.to_be_bytes();
    [
        cost,
        cost_low,
        backup,
        backup_low,
        deadline,
        deadline_low,
        period,
        period_low,
        halves(record.priority, record.fault_priority),
    ]
}

// The seven bytes in front of the records of a sheet for a share of the processor, which has an edition of its own; of one for the whole, the
// first three of them.
fn header(table: &Table, is_whole: bool) -> [u8; 7] {
    let [interval, interval_low] = table.interval.to_be_bytes();
    let [round, round_low] = table.round.to_be_bytes();
    let [share, share_low] = table.share.to_be_bytes();
    let edition = if is_whole { 0 } else { 1 };
    [
        halves(table.count, edition),
        interval,
        interval_low,
        round,
        round_low,
        share,
        share_low,
    ]
}

// The bytes of a table of at most eight records.
pub fn packed(table: Table) -> Given {
    let is_whole = sheet::is_whole(table.round, table.share);
    let start: usize = if is_whole { 3 } else { 7 };
    let count = table.count.min(8) as usize;
    let mut bytes = [0u8; 80];
    bytes[..7].copy_from_slice(&header(&table, is_whole));
    let places = bytes[start..].chunks_exact_mut(9);
    for (place, record) in places.zip(table.records.iter().take(count)) {
        place.copy_from_slice(&record_bytes(record));
    }
    Given {
        bytes,
        length: start + 9 * count,
    }
}
