// The backups that count: the task's own, and the largest of those that faults bring.
ghost use Rattle.std.specs.Prelude.{◌≡◌, ◌<◌};
ghost use Rattle.sheet.specs.Rules.{table_refusal};
ghost use Rattle.analysis.specs.Common.Entries.{own_tasks};
ghost use Rattle.reasons.specs.Told.{strike_told};
ghost use Rattle.reasons.specs.Terms.{own_backup, is_meant, meant_backup};
ghost use Rattle.reasons.specs.Strikes.{strike_below};

use analysis::Equation;
use sheet::{Record, Table};

// The largest backup so far, and whose it is.
#[derive(Clone, Copy)]
pub struct Strike {
    pub backup: u16,
    pub whose: Option<usize>,
}

// The own backup of a task, 0 where the equation does not have it.
pub fn own_backup(equation: Equation, own: Record) -> u16
    ensures { result ≡ own_backup equation own }
{
    match equation {
        Equation::Elsewhere => 0,
        Equation::Itself => own.backup,
        Equation::Assurance => 0,
    }
}

// Whether the backup of the record at another place is one of those that count.
fn is_meant(table: Table, place: usize, other: usize, equation: Equation) -> bool
    requires good { table_refusal table ≡ 0 }
    requires here { place < table.count }
    requires there { other < table.count }
    ensures { result ≡ is_meant equation (own_tasks table) place other }
{
    let own = table.records[place];
    let task = table.records[other];
    match equation {
        Equation::Elsewhere => (other != place) & (own.priority <= task.fault_priority),
        Equation::Itself => own.fault_priority <= task.fault_priority,
        Equation::Assurance => {
            let equal = task.fault_priority == own.fault_priority;
            let higher = own.fault_priority < task.fault_priority;
            (other == place) | (higher | (equal & (own.priority < task.priority)))
        }
    }
}

// The backup of the record at another place if it counts, else 0.
fn backup_of(table: Table, place: usize, other: usize, equation: Equation) -> u16
    requires good { table_refusal table ≡ 0 }
    requires here { place < table.count }
    requires there { other < table.count }
    ensures { result ≡ meant_backup equation (own_tasks table) place other }
{
    if is_meant(table, place, other, equation) {
        return table.records[other].backup;
    }
    0
}

// The largest backup of those that count, and whose it is.
pub fn largest(table: Table, place: usize, equation: Equation) -> Strike
    requires good { table_refusal table ≡ 0 }
    requires here { place < table.count }
    ensures { result ≡ strike_told (strike_below (meant_backup equation (own_tasks table) place) table.count) }
{
    let mut strike = Strike {
        backup: 0,
        whose: None,
    };
    for other in 0..table.count as usize {
        let backup = backup_of(table, place, other, equation);
        if strike.backup < backup {
            strike = Strike {
                backup,
                whose: Some(other),
            };
        }
    }
    strike
}
