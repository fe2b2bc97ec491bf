// What an entry says of a time.
ghost use Rattle.std.specs.Prelude.{◌≡◌, ◌<◌, true};
ghost use Rattle.analysis.specs.Published.Response.{passes};
ghost use Rattle.analysis.specs.Common.Entries.{outcome_of, says_late, slack_of, entry_from, no_entry};

use crate::{Entry, Outcome, Slack};

// A time, 0 for none, as an outcome.
fn outcome(deadline: u16, time: u16) -> Outcome
    ensures { result ≡ outcome_of deadline time }
{
    if time == 0 {
        return Outcome::Late;
    }
    if deadline < time {
        return Outcome::Late;
    }
    Outcome::OnTime(time)
}

// The deadline less a time, 0 for none.
fn margin(deadline: u16, time: u16) -> Slack
    ensures { result ≡ slack_of deadline time }
{
    if time == 0 {
        return Slack::NoFigure;
    }
    Slack::Figure(deadline as i32 - time as i32)
}

// The entry of a deadline and a time, 0 for none.
pub fn entry(deadline: u16, time: u16) -> Entry
    ensures { result ≡ entry_from deadline time }
{
    Entry {
        deadline,
        outcome: outcome(deadline, time),
        slack: margin(deadline, time),
    }
}

// The entry of a place past the count.
pub fn no_entry() -> Entry
    ensures { result ≡ no_entry }
{
    Entry {
        deadline: 0,
        outcome: Outcome::OnTime(0),
        slack: Slack::Figure(0),
    }
}

// Whether an outcome is the word late.
pub fn says_late(outcome: Outcome) -> bool
    ensures { result ≡ says_late outcome }
{
    match outcome {
        Outcome::OnTime(_) => false,
        Outcome::Late => true,
    }
}
