// The table of a core that a record is tried on: the records that are on it, and that record, with their priorities ranked from 1 and each
// fault priority equal to the priority.
ghost use Rattle.std.specs.Prelude.{◌≡◌, cond, suc, ◌≤◌, ◌<◌, get_or};
ghost use Rattle.sheet.specs.Layout.{record_at};
ghost use Rattle.cores.specs.Renumbered.{priority_among, renumbered};
ghost use Rattle.cores.specs.FirstFit.{joins};
ghost use Rattle.cores.specs.Tried.{Tried};

use sheet::{Record, Table};

// Whether the record at another place is on the core or is the one that is tried.
fn joins(cores: [u8; 8], place: usize, core: u8, other: usize) -> bool
    requires { other < 8 }
    ensures { result ≡ joins (λ k. get_or cores k 0) place core other }
{
    (other == place) | (cores[other] == core)
}

// 1 for what is so, else 0.
fn one_if(is_so: bool) -> u8
    ensures answer { result ≡ cond is_so 1 0 }
    ensures bounded { result ≤ 1 }
{
    if is_so { 1 } else { 0 }
}

// The priority on the core that a priority becomes: 1, and one more for each lower one among the records of the core.
fn renumber(table: Table, cores: [u8; 8], place: usize, core: u8, priority: u8) -> u8
    requires { place < 8 }
    ensures { result ≡ priority_among (record_at table.records) (joins (λ k. get_or cores k 0) place core) (suc place) priority }
{
    let mut number: u8 = 1;
    for other in 0..place + 1 {
        let is_lower = table.records[other].priority < priority;
        number += one_if(joins(cores, place, core, other) & is_lower);
    }
    number
}

// A record with a number for both its priorities.
fn renumbered(task: Record, number: u8) -> Record
    ensures { result ≡ renumbered task number }
{
    Record {
        priority: number,
        fault_priority: number,
        ..task
    }
}

// The core's table. A record that is not of the core is written over by the next one that is, or lies past the count.
pub fn table_with(table: Table, cores: [u8; 8], place: usize, core: u8) -> Table
    requires { place < 8 }
    ensures { Tried table (λ k. get_or cores k 0) place core result }
{
    let mut records = [table.records[0]; 8];
    let mut count: usize = 0;
    for other in 0..place + 1 {
        let task = table.records[other];
        let number = renumber(table, cores, place, core, task.priority);
        records[count] = renumbered(task, number);
        count += joins(cores, place, core, other) as usize;
    }
    Table {
        count: count as u8,
        records,
        ..table
    }
}
