// The search for a margin. The values are asked for in steps, from the easiest to the hardest: a table that does not hold at a step does not hold at a later one.
ghost use Rattle.std.specs.Prelude.{◌≡◌, ◌≤◌};
ghost use Rattle.analysis.specs.Told.{some_of};
ghost use Rattle.analysis.specs.ByRule.{rule_refusal};
ghost use Rattle.margins.specs.Margins.{holds_with, least_field, asks_least, last_field, last_of, margin_of};
ghost use Rattle.margins.specs.Fitted.{InRoom, Placed, value_at};

use crate::changing::Change;
use crate::{Field, changing};
use analysis::Rule;
use sheet::{Record, Table};

// Whether of a field the least value is asked for.
fn least_field(field: Field) -> bool
    ensures { result ≡ least_field field }
{
    match field {
        Field::Cost => false,
        Field::Backup => false,
        Field::Deadline => true,
        Field::Period => true,
    }
}

// Whether of what is changed the least value is asked for.
fn asks_least(change: Change) -> bool
    ensures { result ≡ asks_least change }
{
    match change {
        Change::One(field, _place) => least_field(field),
        Change::All => false,
    }
}

// The largest value that a field can have.
fn last_field(task: Record, field: Field) -> u16
    ensures { (result ≡ last_field field task) × (result ≤ 65535) }
{
    match field {
        Field::Cost => task.deadline,
        Field::Backup => task.deadline,
        Field::Deadline => task.period,
        Field::Period => 65535,
    }
}

// The largest value that is tried.
fn last_of(table: Table, change: Change) -> u32
    requires few { table.count ≤ 8 }
    requires placed { Placed table change }
    ensures { (result ≡ last_of table change) × InRoom change result }
{
    match change {
        Change::One(field, place) => last_field(table.records[place], field) as u32,
        Change::All => 65535000,
    }
}

// The value at a step.
fn value_at(change: Change, last: u32, step: u32) -> u32
    requires room { last ≤ 65535000 }
    requires within { (1 ≤ step) × (step ≤ last) }
    ensures same { result ≡ value_at change last step }
    ensures some { 1 ≤ result }
{
    if asks_least(change) {
        return last + 1 - step;
    }
    step
}

// Whether a good table with the value at a step is good and meets the rule.
fn holds_at(table: Table, change: Change, rule: Rule, last: u32, step: u32) -> bool
    requires good { rule_refusal rule table ≡ 0 }
    requires room { InRoom change last }
    requires within { (1 ≤ step) × (step ≤ last) }
    ensures { result ≡ holds_with rule table change (value_at change last step) }
{
    let value = value_at(change, last, step);
    let changed = changing::changed(table, change, value);
    analysis::meets_by(changed, rule).unwrap_or(false)
}

// The margin of a good table, where it has one. Where the easiest value does not hold there is none; where it does, what lies between a step that holds and one that does not
// is halved until nothing lies between: at most sixteen verdicts more for a field, and 26 for the factor.
pub fn found(table: Table, change: Change, rule: Rule) -> Option<u32>
    requires good { rule_refusal rule table ≡ 0 }
    requires placed { Placed table change }
    ensures { result ≡ some_of (margin_of rule table change) }
{
    let last = last_of(table, change);
    if !holds_at(table, change, rule, last, 1) {
        return None;
    }
    let mut holds: u32 = 1;
    let mut fails: u32 = last + 1;
    while holds + 1 < fails {
        let middle = (holds + fails) / 2;
        if holds_at(table, change, rule, last, middle) {
            holds = middle;
        } else {
            fails = middle;
        }
    }
    Some(value_at(change, last, holds))
}
