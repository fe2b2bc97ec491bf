// Why a record's time is what it is: the equation that decides, its terms at the time, and the term that makes a late task late. Under the table's own fault priorities, by a rule.
// The call answers any table: a refused one gets its refusal.
#![tactic(auto)]

ghost use Rattle.std.specs.Prelude.{◌≡◌, ◌≤◌, ◌<◌, IfSome, unwrap_or};
ghost use Rattle.places.specs.Answered.{answered};
ghost use Rattle.sheet.specs.Rules.{table_refusal};
ghost use Rattle.reasons.specs.Told.{reason_told};
ghost use Rattle.reasons.specs.Answers.{explained, reason_of};

use analysis::{Equation, Rule};
use places::refusal::Refusal;
use sheet::Table;

mod adding;
mod counting;
mod deciding;
mod striking;

// A term of an equation: so many times so many ticks.
#[derive(Clone, Copy)]
pub struct Term {
    pub times: u32,
    pub ticks: u16,
}

// The term with which the sum is past the deadline: none, the own cost, the own backup, the cost of the record at a place, the faults' backups, or the supplier's ticks.
#[derive(Clone, Copy)]
pub enum Tip {
    Nothing,
    OwnCost,
    OwnBackup,
    Task(usize),
    Faults,
    Supplier,
}

// What `why` answers: the equation that decides, the length and the deadline, the terms at that length (the own cost; the own backup, 0 where the equation
// does not have it; each record's cost at its place, 0 times where it does not count; the faults' backup, and the place of the record whose it is, if it is any's; the supplier's ticks), their sum,
// whether the task is late, and the term that tips it.
#[derive(Clone, Copy)]
pub struct Reason {
    pub equation: Equation,
    pub length: u32,
    pub deadline: u16,
    pub cost: u16,
    pub backup: u16,
    pub tasks: [Term; 8],
    pub faults: Term,
    pub whose: Option<usize>,
    pub supplier: Term,
    pub sum: u64,
    pub late: bool,
    pub tip: Tip,
}

// Why the record at a place of a good table takes a time, or has none, by an equation.
fn explain(table: Table, place: usize, equation: Equation, time: Option<u16>) -> Reason
    requires good { table_refusal table ≡ 0 }
    requires here { place < table.count }
    requires some { IfSome time (λ time. 1 ≤ time) }
    ensures { result ≡ reason_told (explained equation (unwrap_or time 0) table place) }
{
    let own = table.records[place];
    let deadline = own.deadline;
    let length = deciding::length_of(deadline, time);
    let backup = striking::own_backup(equation, own);
    let tasks = counting::tasks_of(table, place, equation, length);
    let struck = striking::largest(table, place, equation);
    let whose = struck.whose;
    let faults = Term {
        times: counting::faults_of(table.interval, equation, length),
        ticks: struck.backup,
    };
    let supplier = counting::supplier_of(table.round, table.share, length);
    let total = adding::total_of(deadline, own.cost, backup, tasks, faults, supplier);
    let tip = total.tip;
    Reason {
        equation,
        length,
        deadline,
        cost: own.cost,
        backup,
        tasks,
        faults,
        whose,
        supplier,
        sum: total.sum,
        late: deciding::is_late(deadline, time),
        tip,
    }
}

// Why the record at a place takes its time by a rule: the equation that decides, its terms at that time, or at the first length past the deadline where there is none up to 65,535,
// their sum, and the term that tips a late task.
pub fn why(table: Table, place: usize, rule: Rule) -> Result<Reason, Refusal>
    ensures { result ≡ answered (reason_of rule table place).refusal (reason_told (reason_of rule table place)) }
{
    let decided = deciding::decide(table, place, rule)?;
    Ok(explain(table, place, decided.equation, decided.time))
}
