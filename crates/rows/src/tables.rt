// Tables from their fields, which are counted from 1: the count, the interval, six for each record, the round and the share.
ghost use Rattle.std.specs.Prelude.{◌≡◌, ◌%◌, ◌<◌, ◌≤◌};
ghost use Rattle.rows.specs.Tables.{fields_of, slot_of, patched_by, record_of, table_of};

use crate::list;
use sheet::{Record, Table};

// A table's fields, each at its number; what stands at 0 is no field.
pub type Fields = [u16; 53];

// The figures of a base's only row, as a table's fields; the round and the share are 1, the whole processor.
pub fn fields_of(base: &[u8]) -> Fields
    ensures { result ≡ fields_of base.now }
{
    let mut fields = [1u16; 53];
    for field in 0..51 {
        fields[field] = short(list::figure(base, 0, field));
    }
    fields
}

// A figure as a field's value.
fn short(figure: u64) -> u16
    ensures { result ≡ figure % 65536 }
{
    (figure % 65536) as u16
}

// The place of a field by its number, or 0, where no field stands.
fn slot(field: u64) -> usize
    ensures answer { result ≡ slot_of field }
    ensures bounded { result < 53 }
{
    if field < 53 { field as usize } else { 0 }
}

// The fields with those replaced that a row gives from a figure on: a field's number, and its value, eight times at most. Each turn writes
// where the row says, so that no chain over the fields has it.
pub fn patched(base: Fields, list: &[u8], start: usize, first: usize) -> Fields
    ensures { result ≡ patched_by base list.now start first }
{
    let mut fields = base;
    for pair in 0..8 {
        let which = first % 256 + 2 * pair;
        let field = slot(list::figure(list, start, which));
        fields[field] = short(list::figure(list, start, which + 1));
    }
    fields
}

// The record whose six fields begin at a number.
fn record(fields: Fields, first: usize) -> Record
    requires { first ≤ 45 }
    ensures { result ≡ record_of fields first }
{
    Record {
        cost: fields[first],
        backup: fields[first + 1],
        deadline: fields[first + 2],
        period: fields[first + 3],
        priority: (fields[first + 4] % 256) as u8,
        fault_priority: (fields[first + 5] % 256) as u8,
    }
}

// The table of the fields.
pub fn table(fields: Fields) -> Table
    ensures { result ≡ table_of fields }
{
    Table {
        count: (fields[1] % 256) as u8,
        interval: fields[2],
        round: fields[51],
        share: fields[52],
        records: [
            record(fields, 3),
            record(fields, 9),
            record(fields, 15),
            record(fields, 21),
            record(fields, 27),
            record(fields, 33),
            record(fields, 39),
            record(fields, 45),
        ],
    }
}
