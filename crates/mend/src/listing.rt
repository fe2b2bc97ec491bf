// The list of changes by value: a change noted where its two values differ, those of a record, and those of a sheet.
ghost use Rattle.std.specs.Prelude.{◌≡◌, ◌+◌, ◌≤◌, ◌<◌, []};
ghost use Rattle.mend.specs.Changes.{held};
ghost use Rattle.mend.specs.Steps.{noted, noted_record, table_changes};

use crate::{Change, Changes, Field, records};
use sheet::{Record, Table};

// No changes.
pub fn none() -> Changes
    ensures { result ≡ held [] }
{
    let change = Change {
        place: 0,
        field: Field::Length,
        old: 0,
        new: 0,
    };
    Changes {
        count: 0,
        list: [change; 17],
    }
}

// The changes with one more at the end, where its two values differ.
fn noted(changes: Changes, change: Change) -> Changes
    requires { changes.count < 17 }
    ensures noted { result ≡ noted changes change }
    ensures few { result.count ≤ changes.count + 1 }
{
    if change.old == change.new {
        return changes;
    }
    let count = changes.count;
    let mut list = changes.list;
    list[count as usize] = change;
    Changes {
        count: count + 1,
        list,
    }
}

// The changes with those of a record at their end.
fn with_record(changes: Changes, place: u8, task: Record) -> Changes
    requires { changes.count < 16 }
    ensures { result ≡ noted_record changes place task }
{
    let deadline = Change {
        place,
        field: Field::Deadline,
        old: task.deadline as u64,
        new: records::mended_deadline(task.deadline, task.period) as u64,
    };
    let fault = Change {
        place,
        field: Field::FaultPriority,
        old: task.fault_priority as u64,
        new: records::mended_fault(task.fault_priority, task.priority) as u64,
    };
    noted(noted(changes, deadline), fault)
}

// The changes of a sheet of an old and a new length and of a table's records.
pub fn changes_of(old: usize, new: usize, table: Table) -> Changes
    requires { table.count ≤ 8 }
    ensures { result ≡ held (table_changes old new table) }
{
    let records = table.records;
    let cut = Change {
        place: 0,
        field: Field::Length,
        old: old as u64,
        new: new as u64,
    };
    let mut changes = noted(none(), cut);
    for place in 0..table.count {
        changes = with_record(changes, place + 1, records[place as usize]);
    }
    changes
}
