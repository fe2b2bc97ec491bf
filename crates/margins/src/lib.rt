// Margins of a table: how far one figure of one record, or all costs and backups together, can go before the table is no longer good or no longer meets a rule with its own fault priorities.
// Every call answers any table: a refused one gets its refusal.
#![tactic(auto)]

ghost use Rattle.std.specs.Prelude.{◌≡◌};
ghost use Rattle.places.specs.Answered.{answered};
ghost use Rattle.analysis.specs.ByRule.{place_refusal};
ghost use Rattle.margins.specs.Answers.{furthest_told, margin_answer, factor_answer};

use crate::changing::Change;
use analysis::Rule;
use places::refusal::Refusal;
use sheet::Table;

mod changing;
mod searching;

// The figure of a record that is moved.
#[derive(Clone, Copy)]
pub enum Field {
    Cost,
    Backup,
    Deadline,
    Period,
}

// The refusal under a rule of asking for the record at a place: that of the table, then 12.
fn judge_place(table: Table, place: usize, rule: Rule) -> Result<(), Refusal>
    ensures { result ≡ answered (place_refusal rule table place) tt }
{
    analysis::judge_rule(table, rule)?;
    if place < table.count as usize {
        Ok(())
    } else {
        Err(Refusal::BadPlace)
    }
}

// The largest cost, the largest backup, the least deadline or the least period of the record at a place with which the table still is good and meets the rule, everything else as it is: at most 17 verdicts.
pub fn margin(table: Table, place: usize, field: Field, rule: Rule) -> Result<Option<u32>, Refusal>
    ensures { result ≡ furthest_told (margin_answer rule table place field) }
{
    judge_place(table, place, rule)?;
    Ok(searching::found(table, Change::One(field, place), rule))
}

// The largest factor in thousandths by which all costs and backups together can grow, each rounded up, below 1,000 where they must shrink: at most 27 verdicts.
pub fn factor(table: Table, rule: Rule) -> Result<Option<u32>, Refusal>
    ensures { result ≡ furthest_told (factor_answer rule table) }
{
    analysis::judge_rule(table, rule)?;
    Ok(searching::found(table, Change::All, rule))
}
