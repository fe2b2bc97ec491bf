// Answers as the numbers of C: refusals, times, intervals, choices.
ghost use Rattle.std.specs.Prelude.{◌≡◌, ◌<◌, ◌^◌, IfOk};
ghost use Rattle.places.specs.Answered.{number_of};
ghost use Rattle.choices.specs.declared.Arrival.TheVariants.{Found};
ghost use Rattle.choices.specs.Stepping.{IsSmall};
ghost use Rattle.fidhaqooban.specs.Numbers.{answer_of, number_from, interval_from, arrival_from, time_of, choice_of};

use analysis::Outcome;
use choices::{Arrival, Stepped};
use places::refusal::Refusal;

// A refusal with a minus sign, or the value.
pub fn answer(refusal: u8, value: usize) -> i64
    requires { value < 2 ^ 63 }
    ensures { result ≡ answer_of refusal value }
{
    if refusal != 0 {
        return 0 - refusal as i64;
    }
    value as i64
}

// A refusal's number with a minus sign.
pub fn refused(refusal: Refusal) -> i64
    ensures { result ≡ answer_of (number_of refusal) 0 }
{
    answer(refusal.number(), 0)
}

// The value that was answered, or that of its refusal.
pub fn number(answered: Result<usize, Refusal>) -> i64
    requires { IfOk answered (λ value. value < 2 ^ 63) }
    ensures { result ≡ number_from answered }
{
    match answered {
        Ok(value) => answer(0, value),
        Err(refusal) => refused(refusal),
    }
}

// An outcome's time, 0 where it is late.
pub fn time_of(outcome: Outcome) -> usize
    ensures answer { result ≡ time_of outcome }
    ensures bounded { result < 65536 }
{
    match outcome {
        Outcome::OnTime(time) => time as usize,
        Outcome::Late => 0,
    }
}

// A choice as a number.
pub fn choice_of(entries: [u8; 8]) -> u32
    requires { IsSmall entries }
    ensures { result ≡ choice_of entries }
{
    let mut choice: u32 = 0;
    for place in 0..8 {
        choice = choice * 16 + entries[place] as u32;
    }
    choice
}

// A least interval as a number: 0 where there is none, or the refusal with a minus sign.
pub fn interval_of(interval: Result<Option<u16>, Refusal>) -> i64
    ensures { result ≡ interval_from interval }
{
    match interval {
        Ok(least) => answer(0, least.unwrap_or(0) as usize),
        Err(refusal) => refused(refusal),
    }
}

// What a step comes to as a number: the choice, 0 at the end, or the refusal with a minus sign.
pub fn step_of(stepped: Stepped) -> i64
    requires { stepped.arrival ≡ Found → IsSmall stepped.walk.entries }
    ensures { result ≡ arrival_from stepped.arrival stepped.walk.entries }
{
    match stepped.arrival {
        Arrival::Refused(refusal) => refused(refusal),
        Arrival::Found => answer(0, choice_of(stepped.walk.entries) as usize),
        Arrival::End => answer(0, 0),
    }
}
