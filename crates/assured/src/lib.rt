// The choices of fault priorities that hold in every run, by the assured equation: the assured times of a table, and every assured choice as a walk and as a list.
// Every call answers any table; one that is refused, with the refusal: 19 for a shared processor after the table's own.
#![tactic(auto)]

ghost use Rattle.std.specs.Prelude.{◌≡◌};
ghost use Rattle.places.specs.Answered.{answered};
ghost use Rattle.choices.specs.Told.{shown};
ghost use Rattle.assured.specs.Told.{times_told};
ghost use Rattle.assured.specs.Answers.{no_entry, without_slack, time_answer, times_answer, step_answer, list_answer, list_leaves};

use analysis::{Outcome, Rule};
use choices::{Stepped, Walk};
use places::refusal::Refusal;
use sheet::Table;

// One record's answer: its deadline beside its assured time, or late where it has none.
#[derive(Clone, Copy)]
pub struct Entry {
    pub deadline: u16,
    pub outcome: Outcome,
}

// What `assured_times` answers: an entry for each record and whether each has an assured time.
#[derive(Clone, Copy)]
pub struct Times {
    pub entries: [Entry; 8],
    pub assured: bool,
}

// The entry of a place past the count.
fn no_entry() -> Entry
    ensures { result ≡ no_entry }
{
    Entry {
        deadline: 0,
        outcome: Outcome::OnTime(0),
    }
}

// An entry by the assured rule, without its slack.
fn without_slack(given: analysis::Entry) -> Entry
    ensures { result ≡ without_slack given }
{
    let outcome = given.outcome;
    Entry {
        deadline: given.deadline,
        outcome,
    }
}

// The assured time, or late, of the record at a place under the table's own fault priorities, beside its deadline.
pub fn assured_time(table: Table, place: usize) -> Result<Entry, Refusal>
    ensures { result ≡ answered (time_answer table place).refusal (time_answer table place).entry }
{
    let timed = analysis::time_by(table, place, Rule::Assured)?;
    Ok(without_slack(timed))
}

// Each record's entry under the table's own fault priorities, and whether they are an assured choice.
pub fn assured_times(table: Table) -> Result<Times, Refusal>
    ensures { result ≡ answered (times_answer table).refusal (times_told (times_answer table)) }
{
    let assessment = analysis::assess_by(table, Rule::Assured)?;
    let mut entries = [no_entry(); 8];
    for place in 0..8 {
        entries[place] = without_slack(assessment.entries[place]);
    }
    Ok(Times {
        entries,
        assured: assessment.passes,
    })
}

// The next assured choice after the one that the walk stands at.
pub fn step(table: Table, walk: Walk) -> Stepped
    ensures { result ≡ shown (step_answer table walk) }
{
    walk.step_by(table, Rule::Assured)
}

// Every assured choice, 4 bytes each, at the start of the output.
pub fn list(table: Table, out: &mut [u8]) -> Result<usize, Refusal>
    ensures answer { result ≡ answered (list_answer table out.old).refusal (list_answer table out.old).entries }
    ensures left { out.new ≡ list_leaves table out.old }
{
    choices::list_by(table, out, Rule::Assured)
}
