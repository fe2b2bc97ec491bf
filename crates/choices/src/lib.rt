// Every choice of fault priorities that meets a rule, as the passing ones do: the walk from choice to choice, and the whole list.
#![tactic(auto)]

ghost use Rattle.std.specs.Prelude.{◌≡◌};
ghost use Rattle.places.specs.Answered.{answered};
ghost use Rattle.choices.specs.Told.{shown};
ghost use Rattle.choices.specs.Answers.{start_walk, step_by, step_answer, list_by, leaves_by, list_answer, list_leaves};

use crate::within::Within;
use analysis::Rule;
use places::refusal::Refusal;
use sheet::Table;

mod lister;
mod odometer;
mod within;

// Where a walk stands: one fault priority for each record, all zero before the first choice.
#[derive(Clone, Copy)]
pub struct Walk {
    pub entries: [u8; 8],
}

// What a step comes to.
#[derive(Clone, Copy)]
pub enum Arrival {
    Found,
    End,
    Refused(Refusal),
}

// What `step` answers: the next walk, and what the step came to.
#[derive(Clone, Copy)]
pub struct Stepped {
    pub walk: Walk,
    pub arrival: Arrival,
}

impl Walk {
    // The walk before the first choice.
    pub fn start() -> Walk
        ensures { result ≡ start_walk }
    {
        Walk { entries: [0u8; 8] }
    }

    // The next choice that meets a rule after the one that the walk stands at.
    pub fn step_by(self, table: Table, rule: Rule) -> Stepped
        ensures { result ≡ shown (step_by rule table self) }
    {
        match odometer::step(table, self.entries, rule) {
            Err(refusal) => Stepped {
                walk: Walk::start(),
                arrival: Arrival::Refused(refusal),
            },
            Ok(Some(entries)) => Stepped {
                walk: Walk { entries },
                arrival: Arrival::Found,
            },
            Ok(None) => Stepped {
                walk: self,
                arrival: Arrival::End,
            },
        }
    }

    // The next passing choice after the one that the walk stands at.
    pub fn step(self, table: Table) -> Stepped
        ensures { result ≡ shown (step_answer table self) }
    {
        self.step_by(table, Rule::Published)
    }
}

// Every choice that meets a rule, 4 bytes each, at the start of the output: how many there are.
pub fn list_by(table: Table, out: &mut [u8], rule: Rule) -> Result<usize, Refusal>
    ensures answer { result ≡ answered (list_by rule table out.old).refusal (list_by rule table out.old).entries }
    ensures left { out.new ≡ leaves_by rule table out.old }
{
    match analysis::bounds_of(table, rule)? {
        Some(bounds) => {
            let within = Within {
                bounds: &bounds,
                rule,
                choice: [0u8; 8],
            };
            lister::put_list(within, out)
        }
        None => Ok(0),
    }
}

// Every passing choice, 4 bytes each, at the start of the output.
pub fn list(table: Table, out: &mut [u8]) -> Result<usize, Refusal>
    ensures answer { result ≡ answered (list_answer table out.old).refusal (list_answer table out.old).entries }
    ensures left { out.new ≡ list_leaves table out.old }
{
    list_by(table, out, Rule::Published)
}
