// How large a backup each record bears, and whether a choice stays within that.
ghost use Rattle.std.specs.Prelude.{◌≡◌};
ghost use Rattle.places.specs.Answered.{answered};
ghost use Rattle.analysis.specs.Told.{limits_told};
ghost use Rattle.analysis.specs.Bounds.Found.{bounds_of};

use crate::common::{by_rank, columns};
use crate::{Bounds, Rule, judge_rule};
use places::refusal::Refusal;
use sheet::Table;

pub mod hopeless;
pub mod limits;
pub mod weighed;
pub mod within;

// The bounds of a table under a rule, or none where a few searches tell that no choice meets it. All is found over the same tasks by rank.
pub fn found(table: Table, rule: Rule) -> Result<Option<Bounds>, Refusal>
    ensures { result ≡ answered (bounds_of rule table).refusal (limits_told (bounds_of rule table)) }
{
    judge_rule(table, rule)?;
    let mut ranked = [0u16; 32];
    let tasks = by_rank::ordered(table, &mut ranked);
    if hopeless::none_meets(table, &tasks) {
        return Ok(None);
    }
    let columns = columns::columns_of(table);
    let priorities = columns.priorities;
    let backups = columns.backups;
    let limits = limits::limits_in(table, &tasks, rule);
    Ok(Some(Bounds {
        count: table.count,
        priorities,
        backups,
        limits,
    }))
}
