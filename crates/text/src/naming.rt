// A task's name in quotes, and a table's text with its tasks' names put into an output.
ghost use Rattle.std.specs.Prelude.{◌≡◌, ◌+◌, ◌*◌, ◌≤◌, length};
ghost use Rattle.places.specs.Places.{joined_below};
ghost use Rattle.sheet.specs.Layout.{edition_for};
ghost use Rattle.text.specs.Named.{with_ink, with_letter, quoted_name, named_row, named_line, named_text, named_size};
ghost use Rattle.text.specs.Putting.{Put};

use crate::{Quote, page};
use cells::Name;
use sheet::{Record, Table};

// The bytes of a table's text with names.
pub fn size(round: u16, share: u16, count: u8) -> usize
    ensures { result ≡ 139 + 36 * edition_for round share + 117 * count }
{
    let tasks = 139 + 117 * count as usize;
    if (round == 1) & (share == 1) {
        tasks
    } else {
        tasks + 36
    }
}

// One byte more.
fn with_ink(quote: Quote, byte: u8) -> Quote
    ensures { result ≡ with_ink quote byte }
{
    let at = quote.at;
    if 66 <= at {
        return quote;
    }
    let mut longer = quote;
    longer.bytes[at] = byte;
    longer.at = at + 1;
    longer
}

// One byte more of the name.
fn with_letter(quote: Quote, byte: u8) -> Quote
    ensures { result ≡ with_letter quote byte }
{
    if byte == b'"' {
        return with_ink(with_ink(quote, b'"'), b'"');
    }
    with_ink(quote, byte)
}

// A name in quotes, blanks after it.
fn quoted(name: Name) -> Quote
    ensures { result ≡ quoted_name name }
{
    let count = (name.length as usize).min(32);
    let room = Quote {
        at: 0,
        bytes: [b' '; 66],
    };
    let open = with_ink(room, b'"');
    let letters = name.bytes[..count]
        .iter()
        .fold(open, |quote, byte| with_letter(quote, *byte));
    with_ink(letters, b'"')
}

// Puts a task's line, and says where it ends.
fn put_row(out: &mut [u8], at: usize, name: Name, task: Record) -> usize
    requires { at + 117 ≤ length out.old }
    ensures { (result ≡ at + 117) × Put out.old at (named_row name task) 117 out.new }
{
    page::put(out, at, &quoted(name).bytes);
    page::put_row(out, at + 66, page::task_numbers(task), 6)
}

// Puts the lines of the tasks. Without names it is another loop (`page::put_tasks`).
fn put_tasks(out: &mut [u8], at: usize, records: [Record; 8], names: [Name; 8], count: u8)
    requires { (count ≤ 8) × (at + 117 * count ≤ length out.old) }
    ensures { Put out.old at (joined_below (named_line records names) count) (117 * count) out.new }
{
    let mut end = at;
    for place in 0..count as usize {
        end = put_row(out, end, names[place], records[place]);
    }
}

// Puts a table's text with names at the start of an output that is long enough.
pub fn put_table(out: &mut [u8], table: Table, names: [Name; 8])
    requires { (1 ≤ table.count) × (table.count ≤ 8) × (named_size table ≤ length out.old) }
    ensures { Put out.old 0 (named_text table names) (named_size table) out.new }
{
    let end = page::put_head(
        out,
        table,
        b"task                                                                priority  fault   cost  backup  deadline  period\n",
    );
    put_tasks(out, end, table.records, names, table.count);
}
