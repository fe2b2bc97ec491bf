// Tables with one change, everything else as it is.
ghost use Rattle.std.specs.Prelude.{◌≡◌, ◌≤◌};
ghost use Rattle.margins.specs.Changes.{with_value};
ghost use Rattle.margins.specs.Fitted.{InRoom, fitted, fitted_at, fitted_to};

use crate::Field;
use sheet::{Record, Table};

// What is changed: a field of the record at a place, or all costs and backups together.
#[derive(Clone, Copy)]
pub enum Change {
    One(Field, usize),
    All,
}

// A record with a field set to a value.
fn with_value(task: Record, field: Field, value: u16) -> Record
    ensures { result ≡ with_value field value task }
{
    match field {
        Field::Cost => Record {
            cost: value,
            ..task
        },
        Field::Backup => Record {
            backup: value,
            ..task
        },
        Field::Deadline => Record {
            deadline: value,
            ..task
        },
        Field::Period => Record {
            period: value,
            ..task
        },
    }
}

// A cost or a backup by a factor in thousandths, rounded up; 0 where that is above the deadline, which the rules refuse as they refuse the figure itself.
fn grown(figure: u16, factor: u32, deadline: u16) -> u16
    ensures { result ≡ fitted factor deadline figure }
{
    let wanted = (figure as u64 * factor as u64 + 999) / 1000;
    if wanted <= deadline as u64 {
        return wanted as u16;
    }
    0
}

// What a change makes of the record at a place.
fn changed_at(task: Record, change: Change, value: u32, place: usize) -> Record
    requires { InRoom change value }
    ensures { result ≡ fitted_at change value place task }
{
    match change {
        Change::One(field, there) => {
            if place == there {
                with_value(task, field, value as u16)
            } else {
                task
            }
        }
        Change::All => Record {
            cost: grown(task.cost, value, task.deadline),
            backup: grown(task.backup, value, task.deadline),
            ..task
        },
    }
}

// A table with a change.
pub fn changed(table: Table, change: Change, value: u32) -> Table
    requires few { table.count ≤ 8 }
    requires room { InRoom change value }
    ensures { result ≡ fitted_to change value table }
{
    let mut records = [sheet::no_record(); 8];
    for place in 0..table.count as usize {
        records[place] = changed_at(table.records[place], change, value, place);
    }
    Table { records, ..table }
}
