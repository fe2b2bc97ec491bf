// The sheet's layout as code, in both editions: fields read from bytes, fields put into bytes, records and tables made of them.
ghost use Rattle.std.specs.Prelude.{◌≡◌, [], ◌∷◌, ◌++◌, ◌+◌, ◌*◌, ◌/◌, ◌%◌, ◌≤◌, ◌<◌, length, get_or, drop};
ghost use Rattle.std.proofs.lemmas.List.Edits.{sets};
ghost use Rattle.places.specs.Places.{joined_below};
ghost use Rattle.sheet.specs.Layout.{count_of, edition_of, interval_of, new_field, round_of, share_of, header_size, start_of, size_of, said_size, edition_for, table_edition, table_size, record_of, room, sheet_record, table_of, record_at, record_bytes, header_bytes, sheet_of};
ghost use Rattle.sheet.specs.Rules.{records_refusal, table_refusal};

use crate::{Record, Table};

// A field of two bytes, the high one first.
fn field(bytes: &[u8], at: usize) -> u16
    requires { at + 1 < length bytes.now }
    ensures { result ≡ get_or bytes.now at 0 * 256 + get_or bytes.now (at + 1) 0 }
{
    bytes[at] as u16 * 256 + bytes[at + 1] as u16
}

// The header's count.
pub fn count(sheet: &[u8]) -> u8
    requires { 3 ≤ length sheet.now }
    ensures { result ≡ count_of sheet.now }
{
    sheet[0] / 16
}

// The header's reserved bits, which number the sheet's edition.
pub fn edition(sheet: &[u8]) -> u8
    requires { 3 ≤ length sheet.now }
    ensures { result ≡ edition_of sheet.now }
{
    sheet[0] % 16
}

// The header's fault interval.
pub fn interval(sheet: &[u8]) -> u16
    requires { 3 ≤ length sheet.now }
    ensures { result ≡ interval_of sheet.now }
{
    field(sheet, 1)
}

// One of the two fields that only the new edition's header has, 1 in the old one.
fn new_field(sheet: &[u8], index: usize) -> u16
    requires long { 3 ≤ length sheet.now }
    requires known { edition_of sheet.now ≤ 1 }
    requires header { start_of sheet.now ≤ length sheet.now }
    requires new { index < 2 }
    ensures { result ≡ new_field sheet.now index }
{
    if edition(sheet) == 0 {
        return 1;
    }
    field(sheet, 3 + 2 * index)
}

// The header's round, 1 in the edition that has none.
pub fn round(sheet: &[u8]) -> u16
    requires long { 3 ≤ length sheet.now }
    requires known { edition_of sheet.now ≤ 1 }
    requires header { start_of sheet.now ≤ length sheet.now }
    ensures { result ≡ round_of sheet.now }
{
    new_field(sheet, 0)
}

// The header's share of the round, 1 in the edition that has none.
pub fn share(sheet: &[u8]) -> u16
    requires long { 3 ≤ length sheet.now }
    requires known { edition_of sheet.now ≤ 1 }
    requires header { start_of sheet.now ≤ length sheet.now }
    ensures { result ≡ share_of sheet.now }
{
    new_field(sheet, 1)
}

// The bytes of an edition's header.
pub fn header_size(edition: u8) -> usize
    ensures { result ≡ header_size edition }
{
    3 + 4 * edition as usize
}

// Where a sheet's records start.
pub fn start(sheet: &[u8]) -> usize
    requires { 3 ≤ length sheet.now }
    ensures { result ≡ start_of sheet.now }
{
    header_size(edition(sheet))
}

// The bytes of a sheet of so many records in an edition.
pub fn size(edition: u8, count: u8) -> usize
    ensures { result ≡ size_of edition count }
{
    header_size(edition) + 9 * count as usize
}

// The edition that a table is written in: the old one for the whole processor.
pub fn edition_for(round: u16, share: u16) -> u8
    ensures { result ≡ edition_for round share }
{
    if crate::is_whole(round, share) { 0 } else { 1 }
}

// The priority that a record's nine bytes hold.
pub fn priority_from(part: &[u8]) -> u8
    requires { length part.now ≡ 9 }
    ensures { result ≡ (record_of part.now).priority }
{
    part[8] / 16
}

// The record that nine bytes hold.
pub fn record_from(part: &[u8]) -> Record
    requires { length part.now ≡ 9 }
    ensures { result ≡ record_of part.now }
{
    Record {
        cost: field(part, 0),
        backup: field(part, 2),
        deadline: field(part, 4),
        period: field(part, 6),
        priority: priority_from(part),
        fault_priority: part[8] % 16,
    }
}

// The records of a sheet, zero past the count.
pub fn records_of(sheet: &[u8], count: u8) -> [Record; 8]
    requires few { count ≤ 8 }
    requires sized { length sheet.now ≡ size_of (edition_of sheet.now) count }
    ensures { result ≡ room (sheet_record sheet.now) count }
{
    let mut records = [crate::no_record(); 8];
    let first = start(sheet);
    for place in 0..count as usize {
        let begin = first + 9 * place;
        let end = begin + 9;
        records[place] = record_from(&sheet[begin..end]);
    }
    records
}

// The table that a sheet of the right length holds.
pub fn table_of(sheet: &[u8]) -> Table
    requires few { count_of sheet.now ≤ 8 }
    requires known { edition_of sheet.now ≤ 1 }
    requires sized { length sheet.now ≡ said_size sheet.now }
    ensures { result ≡ table_of sheet.now }
{
    let tasks = count(sheet);
    let records = records_of(sheet, tasks);
    Table {
        count: tasks,
        interval: interval(sheet),
        round: round(sheet),
        share: share(sheet),
        records,
    }
}

// Puts a field's two bytes, the high one first.
fn put_field(out: &mut [u8], at: usize, value: u16)
    requires { at + 2 ≤ length out.old }
    ensures { out.new ≡ sets out.old at (value / 256 ∷ value % 256 ∷ []) }
{
    out[at] = (value / 256) as u8;
    out[at + 1] = (value % 256) as u8;
}

// Puts a record's nine bytes.
fn put_record(out: &mut [u8], at: usize, task: Record)
    requires room { at + 9 ≤ length out.old }
    requires priority { task.priority < 16 }
    requires fault { task.fault_priority < 16 }
    ensures { out.new ≡ sets out.old at (record_bytes task) }
{
    put_field(out, at, task.cost);
    put_field(out, at + 2, task.backup);
    put_field(out, at + 4, task.deadline);
    put_field(out, at + 6, task.period);
    out[at + 8] = task.priority * 16 + task.fault_priority;
}

// Puts the records from a start on.
fn put_records(out: &mut [u8], start: usize, records: [Record; 8], count: u8)
    requires few { count ≤ 8 }
    requires room { start + 9 * count ≤ length out.old }
    requires good { records_refusal count (record_at records) ≡ 0 }
    ensures { out.new ≡ sets out.old start (joined_below (λ place. record_bytes (record_at records place)) count) }
{
    for place in 0..count as usize {
        put_record(out, start + 9 * place, records[place]);
    }
}

// Puts the header of a table's edition.
fn put_header(out: &mut [u8], table: Table)
    requires room { header_size (table_edition table) ≤ length out.old }
    requires few { table.count < 16 }
    ensures { out.new ≡ sets out.old 0 (header_bytes table) }
{
    let edition = edition_for(table.round, table.share);
    out[0] = table.count * 16 + edition;
    put_field(out, 1, table.interval);
    if edition == 0 {
        return;
    }
    put_field(out, 3, table.round);
    put_field(out, 5, table.share);
}

// Puts a good table's sheet at the start of an output that is long enough.
pub fn put_sheet(out: &mut [u8], table: Table)
    requires good { table_refusal table ≡ 0 }
    requires room { table_size table ≤ length out.old }
    ensures { out.new ≡ sheet_of table ++ drop (table_size table) out.old }
{
    let edition = edition_for(table.round, table.share);
    let records = table.records;
    put_header(out, table);
    put_records(out, header_size(edition), records, table.count);
}
