// How many times each cost, the faults' backup and the supplier's ticks count in a length.
ghost use Rattle.std.specs.Prelude.{◌≡◌, ◌+◌, ◌≤◌, ◌<◌, cond, ◌&&◌, ltb};
ghost use Rattle.sheet.specs.Rules.{table_refusal};
ghost use Rattle.analysis.specs.Common.Rounding.{up};
ghost use Rattle.analysis.specs.Common.Entries.{own_tasks};
ghost use Rattle.reasons.specs.Terms.{times_of, task_terms, no_term, faults_of, supplier_term};

use crate::Term;
use analysis::Equation;
use sheet::Table;

// No term.
pub fn no_term() -> Term
    ensures { result ≡ no_term }
{
    Term { times: 0, ticks: 0 }
}

// How many times a period begins in a length.
fn begun(length: u32, period: u16) -> u32
    requires some { 1 ≤ period }
    requires short { length ≤ 65536 }
    ensures same { result ≡ up length period }
    ensures small { result ≤ 65536 }
{
    let rest = period as u32 - 1;
    (length + rest) / period as u32
}

// So many times where it counts, else 0.
fn counted(is_counted: bool, times: u32) -> u32
    ensures { result ≡ cond is_counted times 0 }
{
    if is_counted { times } else { 0 }
}

// The same where the first fault strikes the task: above its priority so many times, between its fault priority and its priority once more.
fn counted_struck(priority: u8, fault: u8, other: u8, times: u32) -> u32
    requires short { times ≤ 65536 }
    ensures { result ≡ cond (ltb priority other) times (cond (ltb fault other && ltb other priority) (1 + times) 0) }
{
    if priority < other {
        return times;
    }
    counted((fault < other) & (other < priority), 1 + times)
}

// How many times the cost of the record at another place counts in a length.
fn times_of(table: Table, place: usize, other: usize, equation: Equation, length: u32) -> u32
    requires good { table_refusal table ≡ 0 }
    requires here { place < table.count }
    requires there { other < table.count }
    requires short { length ≤ 65536 }
    ensures { result ≡ times_of equation (own_tasks table) place length other }
{
    let own = table.records[place];
    let task = table.records[other];
    let times = begun(length, task.period);
    match equation {
        Equation::Elsewhere => counted(own.priority < task.priority, times),
        Equation::Itself => counted_struck(own.priority, own.fault_priority, task.priority, times),
        Equation::Assurance => {
            counted(
                (other != place) & (own.fault_priority < task.priority),
                times,
            )
        }
    }
}

// The terms of all records, each at its place.
pub fn tasks_of(table: Table, place: usize, equation: Equation, length: u32) -> [Term; 8]
    requires good { table_refusal table ≡ 0 }
    requires here { place < table.count }
    requires short { length ≤ 65536 }
    ensures { result ≡ task_terms equation (own_tasks table) place length }
{
    let mut tasks = [no_term(); 8];
    for other in 0..table.count as usize {
        tasks[other] = Term {
            times: times_of(table, place, other, equation, length),
            ticks: table.records[other].cost,
        };
    }
    tasks
}

// How many faults are paid for in a length that is not 0: each, or each but the task's own.
pub fn faults_of(interval: u16, equation: Equation, length: u32) -> u32
    requires some { 1 ≤ interval }
    requires long { 1 ≤ length }
    requires short { length ≤ 65536 }
    ensures { result ≡ faults_of equation interval length }
{
    let faults = begun(length, interval);
    match equation {
        Equation::Elsewhere => faults,
        Equation::Itself => faults - 1,
        Equation::Assurance => faults,
    }
}

// The supplier's ticks, once for each round that begins in a length.
pub fn supplier_of(round: u16, share: u16, length: u32) -> Term
    requires some { 1 ≤ round }
    requires within { share ≤ round }
    requires short { length ≤ 65536 }
    ensures { result ≡ supplier_term round share length }
{
    Term {
        times: begun(length, round),
        ticks: round - share,
    }
}
