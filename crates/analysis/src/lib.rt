// Response times, the verdict and the least fault interval of a timing table, by the equations of documents 01 and 02.
// Every call answers any table; one that is refused, with the refusal.
#![tactic(auto)]

ghost use Rattle.std.specs.Prelude.{◌≡◌};
ghost use Rattle.places.specs.Answered.{answered};
ghost use Rattle.analysis.specs.Told.{times_told, some_of, least_told, limits_told};
ghost use Rattle.analysis.specs.Published.Answers.{timed_answer, choice_refusal, choice_assessment, own_assessment, interval_answer};
ghost use Rattle.analysis.specs.ByRule.{rule_refusal, judged_refusal, choice_assessment_by, own_assessment_by, meets_answer, own_meets, place_refusal, timed_by, interval_answer_by};
ghost use Rattle.analysis.specs.ByEquation.{solution_of};
ghost use Rattle.analysis.specs.BySheet.{timed_in, assessed_in};
ghost use Rattle.analysis.specs.Bounds.Found.{bounds_of};
ghost use Rattle.analysis.specs.Bounds.Within.{within_answer};
ghost use Rattle.analysis.specs.Bounds.Lent.{bounds_lent};

use crate::bounding::weighed::Weighed;
use crate::bounding::within;
use crate::common::choice;
use crate::common::tasks::Task;
use places::refusal::Refusal;
use sheet::Table;

mod assured;
mod bounding;
mod by_equation;
mod by_rule;
mod by_sheet;
mod common;
mod halving;
mod meeting;
mod published;

// A response time, or late.
#[derive(Clone, Copy)]
pub enum Outcome {
    OnTime(u16),
    Late,
}

// By how many ticks a response is within its deadline, negative where it is past it, or that there is no figure.
#[derive(Clone, Copy)]
pub enum Slack {
    Figure(i32),
    NoFigure,
}

// One record's answer: its deadline beside its response, and the slack.
#[derive(Clone, Copy)]
pub struct Entry {
    pub deadline: u16,
    pub outcome: Outcome,
    pub slack: Slack,
}

// What `assess`, `assess_choice`, both by a rule and `assess_in` answer: an entry for each record and whether no task is late.
#[derive(Clone, Copy)]
pub struct Assessment {
    pub entries: [Entry; 8],
    pub passes: bool,
}

// The rule that a choice of fault priorities is judged by: the published equations, or the assured equation.
#[derive(Clone, Copy)]
pub enum Rule {
    Published,
    Assured,
}

// One of the equations that a time is the least length of: struck elsewhere, struck itself, or the assured equation.
#[derive(Clone, Copy)]
pub enum Equation {
    Elsewhere,
    Itself,
    Assurance,
}

// The priorities and the backups of a table's records in record order, 0 past the count.
#[derive(Clone, Copy)]
pub struct Columns {
    pub priorities: [u8; 8],
    pub backups: [u16; 8],
}

// How large a backup each record of a table bears under a rule: the count, the records' priorities and backups in record order, and the limits of each, one more than the largest backup that it bears or 0;
// for the record at a place as M at 9 times the place, as N under a fault priority q at 9 times the place plus q.
#[derive(Clone, Copy)]
pub struct Bounds {
    pub count: u8,
    pub priorities: [u8; 8],
    pub backups: [u16; 8],
    pub limits: [u32; 72],
}

// The refusal of a table under a rule: the table's own, then 19 where the rule speaks of the whole processor.
pub fn judge_rule(table: Table, rule: Rule) -> Result<(), Refusal>
    ensures { result ≡ answered (rule_refusal rule table) tt }
{
    match rule {
        Rule::Published => sheet::judge_table(table),
        Rule::Assured => sheet::judge_whole(table),
    }
}

// The refusal of a choice under a rule: that of the table, then 13.
pub fn judge_choice_by(table: Table, choice: [u8; 8], rule: Rule) -> Result<(), Refusal>
    ensures { result ≡ answered (judged_refusal rule table choice) tt }
{
    judge_rule(table, rule)?;
    if choice::all_allowed(table, choice) {
        Ok(())
    } else {
        Err(Refusal::BadChoice)
    }
}

// The refusal of a choice of fault priorities: the table's own, then 13.
pub fn judge_choice(table: Table, choice: [u8; 8]) -> Result<(), Refusal>
    ensures { result ≡ answered (choice_refusal table choice) tt }
{
    judge_choice_by(table, choice, Rule::Published)
}

// The refusal under a rule of asking for the record at a place: that of the table, then 12.
fn judge_record_place(table: Table, place: usize, rule: Rule) -> Result<(), Refusal>
    ensures { result ≡ answered (place_refusal rule table place) tt }
{
    judge_rule(table, rule)?;
    if place < table.count as usize {
        Ok(())
    } else {
        Err(Refusal::BadPlace)
    }
}

// The time by a rule, or late, of the record at a place, beside its deadline.
pub fn time_by(table: Table, place: usize, rule: Rule) -> Result<Entry, Refusal>
    ensures { result ≡ answered (timed_by rule table place).refusal (timed_by rule table place).entry }
{
    judge_record_place(table, place, rule)?;
    Ok(by_rule::entry_of(table, choice::own_choice(table), place, rule))
}

// The response time, or late, of the record at a place, beside its deadline.
pub fn response_time(table: Table, place: usize) -> Result<Entry, Refusal>
    ensures { result ≡ answered (timed_answer table place).refusal (timed_answer table place).entry }
{
    time_by(table, place, Rule::Published)
}

// The time by one of the equations of the record at a place, searched for up to 65,535, where it has one.
pub fn time_of(table: Table, place: usize, equation: Equation) -> Result<Option<u16>, Refusal>
    ensures { result ≡ answered (solution_of equation table place).refusal (some_of (solution_of equation table place).time) }
{
    judge_record_place(table, place, by_equation::rule_of(equation))?;
    Ok(by_equation::time_under(table, choice::own_choice(table), place, equation))
}

// The time by a rule, or late, of a sheet's bytes, which are read straight into columns: the sheet's own refusal comes first.
pub fn time_in(sheet: &[u8], place: usize, rule: Rule) -> Result<Entry, Refusal>
    ensures { result ≡ answered (timed_in rule sheet.now place).refusal (timed_in rule sheet.now place).entry }
{
    let mut columns = [0u16; 32];
    let mut faults = [0u8; 8];
    let mut ranks = [0u8; 8];
    let frame = by_sheet::read_at(sheet, place, rule, &mut columns, &mut faults, &mut ranks)?;
    let among = by_sheet::chosen(frame, &columns, &faults);
    let rank = ranks[place] as usize;
    Ok(Task { among, rank }.entry(rule))
}

// Each record's entry by a rule, and whether no task is late by it, under a choice that takes the place of the table's own fault priorities.
pub fn assess_choice_by(table: Table, choice: [u8; 8], rule: Rule) -> Result<Assessment, Refusal>
    ensures { result ≡ answered (choice_assessment_by rule table choice).refusal (times_told (choice_assessment_by rule table choice)) }
{
    by_rule::assessment(table, choice, rule)
}

// The same under the table's own fault priorities, which are a choice of every good table.
pub fn assess_by(table: Table, rule: Rule) -> Result<Assessment, Refusal>
    ensures { result ≡ answered (own_assessment_by rule table).refusal (times_told (own_assessment_by rule table)) }
{
    assess_choice_by(table, choice::own_choice(table), rule)
}

// Each record's entry, and whether no task is late, under a choice.
pub fn assess_choice(table: Table, choice: [u8; 8]) -> Result<Assessment, Refusal>
    ensures { result ≡ answered (choice_assessment table choice).refusal (times_told (choice_assessment table choice)) }
{
    assess_choice_by(table, choice, Rule::Published)
}

// The same under the table's own fault priorities.
pub fn assess(table: Table) -> Result<Assessment, Refusal>
    ensures { result ≡ answered (own_assessment table).refusal (times_told (own_assessment table)) }
{
    assess_by(table, Rule::Published)
}

// The same by a rule, of a sheet's bytes, which are read straight into columns: the sheet's own refusal comes first.
pub fn assess_in(sheet: &[u8], rule: Rule) -> Result<Assessment, Refusal>
    ensures { result ≡ answered (assessed_in rule sheet.now).refusal (times_told (assessed_in rule sheet.now)) }
{
    let mut columns = [0u16; 32];
    let mut faults = [0u8; 8];
    let mut ranks = [0u8; 8];
    let frame = by_sheet::read(sheet, rule, &mut columns, &mut faults, &mut ranks)?;
    Ok(by_sheet::chosen(frame, &columns, &faults).assessed(&ranks, rule))
}

// The smallest fault interval at which the table passes with its own fault priorities, where it does at one.
pub fn least_interval(table: Table) -> Result<Option<u16>, Refusal>
    ensures { result ≡ least_told (interval_answer table) }
{
    least_interval_by(table, Rule::Published)
}

// The same by a rule: the smallest one at which the table meets it.
pub fn least_interval_by(table: Table, rule: Rule) -> Result<Option<u16>, Refusal>
    ensures { result ≡ least_told (interval_answer_by rule table) }
{
    judge_rule(table, rule)?;
    Ok(halving::least(table, rule))
}

// How large a backup each record bears under a rule, found by at most ten searches for each record and each fault priority that it can have, and for M;
// none where a few searches tell that no choice meets the rule.
pub fn bounds_of(table: Table, rule: Rule) -> Result<Option<Bounds>, Refusal>
    ensures { result ≡ answered (bounds_of rule table).refusal (limits_told (bounds_of rule table)) }
{
    bounding::found(table, rule)
}

// Whether a choice stays within bounds under a rule, which are lent, so that no choice costs a copy of them: for those of a good table and a choice that it has, whether it meets the rule.
pub fn meets_lent<'a>(bounds: &'a Bounds, choice: &'a [u8; 8], rule: Rule) -> Result<bool, Refusal>
    ensures { result ≡ answered (within_answer rule (bounds_lent bounds.now) choice.now).refusal (within_answer rule (bounds_lent bounds.now) choice.now).yes }
{
    within::judge(bounds.count)?;
    let weighed = Weighed {
        priorities: &bounds.priorities,
        backups: &bounds.backups,
        limits: &bounds.limits,
        choice,
        count: bounds.count,
    };
    Ok(weighed.within(rule))
}

// Whether a choice meets a rule, found without its times: yes or no is all that is asked of each task.
pub fn meets_choice(table: Table, choice: [u8; 8], rule: Rule) -> Result<bool, Refusal>
    ensures { result ≡ answered (meets_answer rule table choice).refusal (meets_answer rule table choice).yes }
{
    judge_choice_by(table, choice, rule)?;
    Ok(meeting::meets(table, choice, rule))
}

// The same under the table's own fault priorities.
pub fn meets_by(table: Table, rule: Rule) -> Result<bool, Refusal>
    ensures { result ≡ answered (own_meets rule table).refusal (own_meets rule table).yes }
{
    meets_choice(table, choice::own_choice(table), rule)
}
