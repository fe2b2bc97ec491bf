// Which equation decides a record's time, and the length that its terms are told at.
ghost use Rattle.std.specs.Prelude.{◌≡◌, ◌≤◌, IfSome, unwrap_or};
ghost use Rattle.places.specs.Answered.{answered};
ghost use Rattle.analysis.specs.declared.Rule.TheVariants.{Published, Assured};
ghost use Rattle.analysis.specs.Common.Entries.{is_late};
ghost use Rattle.analysis.specs.ByRule.{place_refusal};
ghost use Rattle.reasons.specs.Deciding.{is_longer, length_of, decided_of};

use analysis::{Equation, Rule};
use places::refusal::Refusal;
use sheet::Table;

// The equation that decides, and its time, where it has one.
#[derive(Clone, Copy)]
pub struct Decided {
    pub equation: Equation,
    pub time: Option<u16>,
}

// Whether the second of two times is the longer one.
fn is_longer(first: Option<u16>, second: Option<u16>) -> bool
    requires first { IfSome first (λ time. 1 ≤ time) }
    requires second { IfSome second (λ time. 1 ≤ time) }
    ensures { result ≡ is_longer (unwrap_or first 0) (unwrap_or second 0) }
{
    match (first, second) {
        (Some(first), Some(second)) => first < second,
        (Some(_), None) => true,
        (None, _) => false,
    }
}

// The equation that decides by the published rule, and its time: the longer of the two.
fn decide_longer(table: Table, place: usize) -> Result<Decided, Refusal>
    ensures { result ≡ answered (place_refusal Published table place) (decided_of Published table place) }
{
    let elsewhere = analysis::time_of(table, place, Equation::Elsewhere)?;
    let itself = analysis::time_of(table, place, Equation::Itself)?;
    if is_longer(elsewhere, itself) {
        return Ok(Decided {
            equation: Equation::Itself,
            time: itself,
        });
    }
    Ok(Decided {
        equation: Equation::Elsewhere,
        time: elsewhere,
    })
}

// The one equation of the assured rule, and its time.
fn decide_assured(table: Table, place: usize) -> Result<Decided, Refusal>
    ensures { result ≡ answered (place_refusal Assured table place) (decided_of Assured table place) }
{
    Ok(Decided {
        equation: Equation::Assurance,
        time: analysis::time_of(table, place, Equation::Assurance)?,
    })
}

// The equation that decides by a rule, and its time.
pub fn decide(table: Table, place: usize, rule: Rule) -> Result<Decided, Refusal>
    ensures { result ≡ answered (place_refusal rule table place) (decided_of rule table place) }
{
    match rule {
        Rule::Published => decide_longer(table, place),
        Rule::Assured => decide_assured(table, place),
    }
}

// The length that the terms are told at.
pub fn length_of(deadline: u16, time: Option<u16>) -> u32
    requires { IfSome time (λ time. 1 ≤ time) }
    ensures same { result ≡ length_of deadline (unwrap_or time 0) }
    ensures some { 1 ≤ result }
    ensures small { result ≤ 65536 }
{
    match time {
        Some(time) => time as u32,
        None => deadline as u32 + 1,
    }
}

// Whether there is no time within the deadline.
pub fn is_late(deadline: u16, time: Option<u16>) -> bool
    requires { IfSome time (λ time. 1 ≤ time) }
    ensures { result ≡ is_late deadline (unwrap_or time 0) }
{
    match time {
        Some(time) => deadline < time,
        None => true,
    }
}
