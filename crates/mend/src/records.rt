// The three changes as code: how many bytes are kept, a record mended, and the table of a sheet with its records mended.
ghost use Rattle.std.specs.Prelude.{◌≡◌, ◌≤◌, length};
ghost use Rattle.mend.specs.Mended.{mended_deadline, mended_fault, mended_record};
ghost use Rattle.mend.specs.Steps.{kept_of, mended_table};

use sheet::{Record, Table};

// How many bytes of a sheet are kept: those up to the end of its last record where they are all there, else all.
pub fn kept(sheet: &[u8]) -> usize
    ensures kept { result ≡ kept_of sheet.now }
    ensures inside { result ≤ length sheet.now }
{
    let whole = sheet.len();
    match sheet::said_size(sheet) {
        Ok(size) => if size < whole { size } else { whole },
        Err(_) => whole,
    }
}

// A deadline brought down to its period where it is above it.
pub fn mended_deadline(deadline: u16, period: u16) -> u16
    ensures { result ≡ mended_deadline deadline period }
{
    if period < deadline { period } else { deadline }
}

// A fault priority brought to the task's own where it is above it, or zero.
pub fn mended_fault(fault: u8, priority: u8) -> u8
    ensures { result ≡ mended_fault fault priority }
{
    if fault == 0 {
        return priority;
    }
    if priority < fault { priority } else { fault }
}

// A record with both.
fn mended_record(task: Record) -> Record
    ensures { result ≡ mended_record task }
{
    Record {
        deadline: mended_deadline(task.deadline, task.period),
        fault_priority: mended_fault(task.fault_priority, task.priority),
        ..task
    }
}

// A table with its records mended, those past the count too.
pub fn mended_table(table: Table) -> Table
    ensures { result ≡ mended_table table }
{
    let typed = table.records;
    let mut records = typed;
    for place in 0..8 {
        records[place] = mended_record(typed[place]);
    }
    Table { records, ..table }
}
