// From one choice to the next: whether a walk may go on after a start, the choice right after another, and the next one that meets a rule.
ghost use Rattle.std.specs.Prelude.{◌≡◌, true, ◌||◌, ◌≤◌, ◌<◌, ltb, map, length, slice_get};
ghost use Rattle.places.specs.Answered.{answered};
ghost use Rattle.analysis.specs.Common.Columns.{priorities_of};
ghost use Rattle.analysis.specs.Common.Allowed.{is_allowed, all_allowed};
ghost use Rattle.analysis.specs.ByRule.{meets, rule_refusal};
ghost use Rattle.choices.specs.Choices.{chosen};
ghost use Rattle.choices.specs.Order.{all_zero, after_of};
ghost use Rattle.choices.specs.Answers.{start_refusal};
ghost use Rattle.choices.specs.Stepping.{first_for, next_of, within_of, Levels};

use analysis::{Bounds, Rule};
use places::refusal::Refusal;
use sheet::Table;

// The priorities of a table's records, 0 past the count, of any table that has no more than eight.
fn priorities_of(table: Table) -> [u8; 8]
    ensures { table.count ≤ 8 → result ≡ priorities_of table }
{
    let count = usize::min(table.count as usize, 8);
    let mut priorities = [0u8; 8];
    for place in 0..count {
        priorities[place] = table.records[place].priority;
    }
    priorities
}

// Whether no fault priority stands in it.
fn all_zero(choice: &[u8; 8]) -> bool
    ensures { result ≡ all_zero choice.now }
{
    choice.iter().all(|entry| *entry == 0)
}

// The first fault priority allowed for a record of the priority, 0 past the count.
fn first_fault(priority: u8) -> u8
    ensures { result ≡ first_for priority }
{
    if priority == 0 { 0 } else { 1 }
}

// Whether an entry lies from the first allowed for a record of the priority to the priority.
fn is_allowed(priority: u8, entry: u8) -> bool
    ensures { result ≡ is_allowed priority entry }
{
    !((entry < first_fault(priority)) | (priority < entry))
}

// Whether every entry of a choice is allowed.
fn all_allowed<'a>(priorities: &'a [u8; 8], choice: &'a [u8; 8]) -> bool
    ensures { result ≡ all_allowed priorities.now choice.now }
{
    priorities
        .iter()
        .zip(choice)
        .all(|(priority, entry)| is_allowed(*priority, *entry))
}

// Whether a walk may go on after a choice: it is all zero, or allowed.
fn may_start<'a>(priorities: &'a [u8; 8], choice: &'a [u8; 8]) -> bool
    ensures { result ≡ (all_zero choice.now || all_allowed priorities.now choice.now) }
{
    if all_zero(choice) {
        return true;
    }
    all_allowed(priorities, choice)
}

// The first choice of the priorities.
fn first_choice(priorities: [u8; 8]) -> [u8; 8]
    ensures { result ≡ map first_for priorities }
{
    priorities.map(first_fault)
}

// Whether an entry can rise: it is below the priority, so that one more fits its byte.
fn can_rise(entry: u8, priority: u8) -> bool
    ensures same { result ≡ ltb entry priority }
    ensures room { result ≡ true → entry < 255 }
{
    entry < priority
}

// Puts the choice right after another in its place; whether there is one.
fn next(priorities: &[u8; 8], choice: &mut [u8; 8]) -> bool
    ensures answer { result ≡ (next_of priorities.now choice.old).rose }
    ensures left { choice.new ≡ (next_of priorities.now choice.old).entries }
{
    if all_zero(choice) {
        *choice = first_choice(*priorities);
        return true;
    }
    for place in (0..8).rev() {
        if can_rise(choice[place], priorities[place]) {
            choice[place] += 1;
            return true;
        }
        choice[place] = first_fault(priorities[place]);
    }
    false
}

// The first choice after another that stays within bounds, where there is one.
pub fn go_on(bounds: &Bounds, rule: Rule, mut choice: [u8; 8]) -> Option<[u8; 8]>
    requires levels { Levels bounds.now.priorities }
    requires allowed { (all_zero choice || all_allowed bounds.now.priorities choice) ≡ true }
    ensures { result ≡ slice_get (after_of choice (within_of rule bounds.now)) 0 }
{
    while next(&bounds.priorities, &mut choice) {
        if analysis::meets_lent(bounds, &choice, rule).unwrap_or(false) {
            return Some(choice);
        }
    }
    None
}

// The first choice after another that meets a rule, where there is one. The bounds, of which there are none where no choice meets the rule, are found for it.
fn advance(table: Table, choice: [u8; 8], rule: Rule) -> Result<Option<[u8; 8]>, Refusal>
    requires { (all_zero choice || all_allowed (priorities_of table) choice) ≡ true }
    ensures { result ≡ answered (rule_refusal rule table) (slice_get (after_of choice (chosen (meets rule) table)) 0) }
{
    match analysis::bounds_of(table, rule)? {
        Some(bounds) => Ok(go_on(&bounds, rule, choice)),
        None => Ok(None),
    }
}

// The first choice after a start that meets a rule, where there is one. The choice right after the start is looked at first, from the lowest task up,
// which judges the table as well; one found at once does not pay for bounds.
pub fn step(table: Table, start: [u8; 8], rule: Rule) -> Result<Option<[u8; 8]>, Refusal>
    ensures { result ≡ answered (start_refusal rule table start) (slice_get (after_of start (chosen (meets rule) table)) 0) }
{
    let priorities = priorities_of(table);
    if !may_start(&priorities, &start) {
        analysis::judge_rule(table, rule)?;
        return Err(Refusal::BadChoice);
    }
    let mut choice = start;
    let is_left = next(&priorities, &mut choice);
    let is_met = analysis::meets_choice(table, choice, rule)?;
    if !is_left {
        return Ok(None);
    }
    if is_met {
        return Ok(Some(choice));
    }
    advance(table, choice, rule)
}
