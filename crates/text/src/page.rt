// A table's text put into an output: names, numbers in columns, lines.
ghost use Rattle.std.specs.Prelude.{◌≡◌, ◌+◌, ◌*◌, ◌≤◌, ◌<◌, ◌++◌, length, get_or};
ghost use Rattle.places.specs.Places.{joined_below};
ghost use Rattle.sheet.specs.Layout.{edition_for, table_edition};
ghost use Rattle.report.specs.Decimal.{decimal};
ghost use Rattle.text.specs.Shown.{widths, column_at, padded, row_text, task_numbers, interval_text, share_text, task_text, shown_text, text_size};
ghost use Rattle.text.specs.Putting.{Put};

use sheet::{Record, Table};

// The columns' widths.
const WIDTHS: [usize; 6] = [10, 7, 7, 8, 10, 8];

// The bytes of a table's text.
pub fn size(round: u16, share: u16, count: u8) -> usize
    ensures { result ≡ 73 + 36 * edition_for round share + 51 * count }
{
    let tasks = 73 + 51 * count as usize;
    if (round == 1) & (share == 1) {
        tasks
    } else {
        tasks + 36
    }
}

// Puts bytes from a place on.
pub fn put(out: &mut [u8], at: usize, bytes: &[u8])
    requires { at + length bytes.now ≤ length out.old }
    ensures { Put out.old at bytes.now (length bytes.now) out.new }
{
    out[at..at + bytes.len()].copy_from_slice(bytes);
}

// A number at the right end of ten bytes. How many digits it has is known only once none is left, so no range counts the places.
fn cell(number: u16) -> [u8; 10]
    ensures { (result ≡ padded 10 number) × (length (decimal number) ≤ 5) }
{
    let mut bytes = [b' '; 10];
    bytes[9] = b'0' + (number % 10) as u8;
    let mut place: usize = 9;
    let mut rest = number / 10;
    while rest != 0 {
        place -= 1;
        bytes[place] = b'0' + (rest % 10) as u8;
        rest = rest / 10;
    }
    bytes
}

// Puts a number at the right end of a column, and says where that ends.
fn put_number(out: &mut [u8], at: usize, number: u16, column: usize) -> usize
    requires { (column < 6) × (at + get_or widths column 0 ≤ length out.old) }
    ensures { (result ≡ at + get_or widths column 0) × Put out.old at (padded (get_or widths column 0) number) (get_or widths column 0) out.new }
{
    let width = WIDTHS[column];
    put(out, at, &cell(number)[10 - width..]);
    at + width
}

// Puts a line of so many numbers, and says where it ends.
pub fn put_row(out: &mut [u8], at: usize, numbers: [u16; 6], count: usize) -> usize
    requires { (count ≤ 6) × (at + 51 ≤ length out.old) }
    ensures { (result ≡ at + (column_at count + 1)) × Put out.old at (row_text numbers count) (column_at count + 1) out.new }
{
    let mut end = at;
    for place in 0..count {
        end = put_number(out, end, numbers[place], place);
    }
    put(out, end, b"\n");
    end + 1
}

// Puts the lines of round and share, where there are any, and says where they end.
pub fn put_share(out: &mut [u8], at: usize, round: u16, share: u16) -> usize
    requires { at + 69 ≤ length out.old }
    ensures { (result ≡ at + 36 * edition_for round share) × Put out.old at (share_text round share) (36 * edition_for round share) out.new }
{
    if (round == 1) & (share == 1) {
        return at;
    }
    put(out, at, b"#    round  share\n");
    put_row(out, at + 18, [round, share, 0, 0, 0, 0], 2)
}

// A task's numbers in the order of their columns.
pub fn task_numbers(task: Record) -> [u16; 6]
    ensures { result ≡ task_numbers task }
{
    [
        task.priority as u16,
        task.fault_priority as u16,
        task.cost,
        task.backup,
        task.deadline,
        task.period,
    ]
}

// Puts what stands above the lines of the tasks, the names of their columns last, and says where it ends.
pub fn put_head(out: &mut [u8], table: Table, names: &[u8]) -> usize
    requires { (91 ≤ length out.old) × (22 + 36 * table_edition table + length names.now ≤ length out.old) }
    ensures { (result ≡ 22 + 36 * table_edition table + length names.now) × Put out.old 0 (interval_text table.interval ++ share_text table.round table.share ++ names.now) (22 + 36 * table_edition table + length names.now) out.new }
{
    put(out, 0, b"# interval\n");
    let end = put_row(out, 11, [table.interval, 0, 0, 0, 0, 0], 1);
    let end = put_share(out, end, table.round, table.share);
    put(out, end, names);
    end + names.len()
}

// Puts the lines of the tasks. With names it is another loop: a trait over both kinds of line would be longer than the two.
fn put_tasks(out: &mut [u8], at: usize, records: [Record; 8], count: u8)
    requires { (count ≤ 8) × (at + 51 * count ≤ length out.old) }
    ensures { Put out.old at (joined_below (task_text records) count) (51 * count) out.new }
{
    let mut end = at;
    for place in 0..count as usize {
        end = put_row(out, end, task_numbers(records[place]), 6);
    }
}

// Puts a table's text at the start of an output that is long enough.
pub fn put_table(out: &mut [u8], table: Table)
    requires { (1 ≤ table.count) × (table.count ≤ 8) × (text_size table ≤ length out.old) }
    ensures { Put out.old 0 (shown_text table) (text_size table) out.new }
{
    let end = put_head(
        out,
        table,
        b"# priority  fault   cost  backup  deadline  period\n",
    );
    put_tasks(out, end, table.records, table.count);
}
