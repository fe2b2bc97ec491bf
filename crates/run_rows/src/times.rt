// Rows about times: what is answered in each form. A response is written with its deadline, as 8/12 or late/20. A row has the figures: the table, what is asked of it, and what is replaced in it (timed_tables::table).
use crate::row::Row;
use crate::timed_tables;
use analysis::{Assessment, Entry, Outcome};
use places::refusal::Refusal;
use sheet::Table;

// Says a refusal.
fn say_refusal(row: Row, at: Option<usize>, refusal: Refusal) -> Option<usize> {
    let named = row.say(at, b" refused");
    row.say_spaced(named, refusal.number() as u64)
}

// Says a response.
fn say_outcome(row: Row, at: Option<usize>, outcome: Outcome) -> Option<usize> {
    match outcome {
        Outcome::OnTime(time) => row.say_spaced(at, time as u64),
        Outcome::Late => row.say(at, b" late"),
    }
}

// Whether a response is the time 0.
fn is_nothing(outcome: Outcome) -> bool {
    matches!(outcome, Outcome::OnTime(0))
}

// Says an entry, or nothing for time 0 beside deadline 0.
fn say_entry(row: Row, at: Option<usize>, entry: Entry) -> Option<usize> {
    let outcome = entry.outcome;
    if (entry.deadline == 0) & is_nothing(outcome) {
        return at;
    }
    let timed = say_outcome(row, at, outcome);
    let stroke = row.say(timed, b"/");
    row.say_number(stroke, entry.deadline as u64)
}

// Says eight entries.
fn say_entries(row: Row, at: Option<usize>, entries: [Entry; 8]) -> Option<usize> {
    let mut end = at;
    for entry in entries {
        end = say_entry(row, end, entry);
    }
    end
}

// Says an answer's response times, or its refusal.
fn say_times(row: Row, at: Option<usize>, answer: Result<Assessment, Refusal>) -> Option<usize> {
    match answer {
        Ok(assessment) => say_entries(row, at, assessment.entries),
        Err(refusal) => say_refusal(row, at, refusal),
    }
}

// Says an answer's verdict: no, and its refusal, where it is refused.
fn say_verdict(row: Row, at: Option<usize>, answer: Result<Assessment, Refusal>) -> Option<usize> {
    match answer {
        Ok(assessment) => if assessment.passes {
            row.say(at, b" yes")
        } else {
            row.say(at, b" no")
        },
        Err(refusal) => say_refusal(row, row.say(at, b" no"), refusal),
    }
}

// Says a table's least interval.
fn say_interval(row: Row, at: Option<usize>, table: Table) -> Option<usize> {
    match analysis::least_interval(table) {
        Ok(Some(interval)) => row.say_spaced(at, interval as u64),
        Ok(None) => row.say(at, b" none"),
        Err(refusal) => say_refusal(row, at, refusal),
    }
}

// The response times.
fn times(row: Row, at: Option<usize>) -> Option<usize> {
    let table = timed_tables::table(row);
    say_times(row, at, analysis::assess(table))
}

// The response time at a place, which is asked for.
fn time(row: Row, at: Option<usize>) -> Option<usize> {
    let place = row.size(2);
    match analysis::response_time(timed_tables::table(row), place) {
        Ok(entry) => say_entry(row, at, entry),
        Err(refusal) => say_refusal(row, at, refusal),
    }
}

// The verdict.
fn verdict(row: Row, at: Option<usize>) -> Option<usize> {
    let table = timed_tables::table(row);
    say_verdict(row, at, analysis::assess(table))
}

// The verdict under a choice, which is asked for.
fn verdict_under(row: Row, at: Option<usize>) -> Option<usize> {
    let table = timed_tables::table(row);
    let choice = rows::choice(row.figure(2));
    say_verdict(row, at, analysis::assess_choice(table, choice))
}

// The times and the verdict, in one answer, under a choice, which is asked for.
fn both_under(row: Row, at: Option<usize>) -> Option<usize> {
    let table = timed_tables::table(row);
    let choice = rows::choice(row.figure(2));
    let answer = analysis::assess_choice(table, choice);
    say_verdict(row, say_times(row, at, answer), answer)
}

// The least interval.
fn interval(row: Row, at: Option<usize>) -> Option<usize> {
    say_interval(row, at, timed_tables::table(row))
}

// Every call's answer, that of the verdict under 1 1 1 among them.
fn every(row: Row, at: Option<usize>) -> Option<usize> {
    let table = timed_tables::table(row);
    let both = analysis::assess(table);
    let at = say_times(row, row.say(at, b", times:"), both);
    let at = row.say(at, b", verdict:");
    let at = say_verdict(row, at, both);
    let at = row.say(at, b", verdict under 1 1 1:");
    let choice = rows::choice(11100000);
    let at = say_verdict(row, at, analysis::assess_choice(table, choice));
    say_interval(row, row.say(at, b", least interval:"), table)
}

// The answer of a form of row.
pub fn answer(form: u8, row: Row, at: Option<usize>) -> Option<usize> {
    match form {
        b't' => times(row, at),
        b'o' => time(row, at),
        b'v' => verdict(row, at),
        b'c' => verdict_under(row, at),
        b'b' => both_under(row, at),
        b'i' => interval(row, at),
        b'e' => every(row, at),
        _ => None,
    }
}
