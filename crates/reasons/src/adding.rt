// The terms added one after the other: their sum, and the first one with which it is past the deadline.
ghost use Rattle.std.specs.Prelude.{◌≡◌, ◌*◌, ◌≤◌};
ghost use Rattle.reasons.specs.Adding.{added, own_added, tasks_added, total_of};

use crate::{Term, Tip};

// What is added so far, and the term that tipped it.
#[derive(Clone, Copy)]
pub struct Total {
    pub sum: u64,
    pub tip: Tip,
}

// What so many times so many ticks amount to.
fn amount(times: u32, ticks: u16) -> u64
    ensures same { result ≡ times * ticks }
    ensures small { result ≤ 281470681677825 }
{
    times as u64 * ticks as u64
}

// A term more.
fn added(total: Total, name: Tip, ticks: u64, deadline: u16) -> Total
    requires room { total.sum ≤ 4611686018427387904 }
    requires small { ticks ≤ 281470681677825 }
    ensures { result ≡ added deadline name ticks total }
{
    let before = total.sum;
    let sum = before + ticks;
    if (deadline as u64) < before {
        let tip = total.tip;
        return Total { sum, tip };
    }
    if (deadline as u64) < sum {
        return Total { sum, tip: name };
    }
    Total {
        sum,
        tip: Tip::Nothing,
    }
}

// The own cost and the own backup.
fn own(deadline: u16, cost: u16, backup: u16) -> Total
    ensures same { result ≡ own_added deadline cost backup }
    ensures small { result.sum ≤ 131070 }
{
    let none = Total {
        sum: 0,
        tip: Tip::Nothing,
    };
    let first = added(none, Tip::OwnCost, cost as u64, deadline);
    added(first, Tip::OwnBackup, backup as u64, deadline)
}

// The terms of the records after them, by place.
fn with_tasks(total: Total, tasks: [Term; 8], deadline: u16) -> Total
    requires room { total.sum ≤ 131070 }
    ensures same { result ≡ tasks_added deadline tasks 8 total }
    ensures small { result.sum ≤ 2251765453553670 }
{
    let mut so_far = total;
    for place in 0..8 {
        let ticks = amount(tasks[place].times, tasks[place].ticks);
        so_far = added(so_far, Tip::Task(place), ticks, deadline);
    }
    so_far
}

// All terms, in the order of the equations.
pub fn total_of(
    deadline: u16,
    cost: u16,
    backup: u16,
    tasks: [Term; 8],
    faults: Term,
    supplier: Term,
) -> Total
    ensures { result ≡ total_of deadline cost backup tasks faults supplier }
{
    let before = with_tasks(own(deadline, cost, backup), tasks, deadline);
    let backups = amount(faults.times, faults.ticks);
    let struck = added(before, Tip::Faults, backups, deadline);
    let rounds = amount(supplier.times, supplier.ticks);
    added(struck, Tip::Supplier, rounds, deadline)
}
