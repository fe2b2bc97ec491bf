// Choices of fault priorities: the sheet's own, and which are allowed, place by place.
ghost use Rattle.std.specs.Prelude.{◌≡◌, ◌≤◌, ◌<◌, ◌+◌, get_or, true};
ghost use Rattle.analysis.specs.Common.Columns.{priorities_of};
ghost use Rattle.analysis.specs.Common.Allowed.{is_allowed, all_allowed};
ghost use Rattle.analysis.specs.Common.Tasks.{fault_at, own_choice};

use sheet::Table;

// A record's own fault priority, 0 past the count.
fn fault_at(table: Table, place: usize) -> u8
    requires { place < 8 }
    ensures { result ≡ fault_at table place }
{
    if place < table.count as usize {
        return table.records[place].fault_priority;
    }
    0
}

// The sheet's own fault priorities.
pub fn own_choice(table: Table) -> [u8; 8]
    ensures { result ≡ own_choice table }
{
    let mut choice = [0u8; 8];
    for place in 0..8 {
        choice[place] = fault_at(table, place);
    }
    choice
}

// The priority of the record at a place, 0 past the count.
fn priority_at(table: Table, place: usize) -> u8
    requires few { table.count ≤ 8 }
    requires here { place < 8 }
    ensures { result ≡ get_or (priorities_of table) place 0 }
{
    if place < table.count as usize {
        return table.records[place].priority;
    }
    0
}

// Whether a fault priority is allowed at a place of the priority.
fn is_allowed(priority: u8, fault: u8) -> bool
    ensures { result ≡ is_allowed priority fault }
{
    if priority == 0 {
        return fault == 0;
    }
    if fault == 0 {
        return false;
    }
    fault <= priority
}

// Whether every fault priority of a choice is allowed.
pub fn all_allowed(table: Table, choice: [u8; 8]) -> bool
    requires { table.count ≤ 8 }
    ensures { result ≡ all_allowed (priorities_of table) choice }
{
    for place in 0..8 {
        if !is_allowed(priority_at(table, place), choice[place]) {
            return false;
        }
    }
    true
}
