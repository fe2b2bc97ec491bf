// Rows of walks from choice to choice: what is answered in each form. A step has found 1 where it found a choice that passes, and 0 at the end;
// the eight bytes are the entries of the walk that comes back.
use crate::row::Row;
use crate::{chosen_tables, lists};
use choices::{Arrival, Stepped, Walk};
use places::refusal::Refusal;
use sheet::Table;

// What a step came to, in the form of a list's answer.
fn found(arrival: Arrival) -> Result<usize, Refusal> {
    match arrival {
        Arrival::Found => Ok(1),
        Arrival::End => Ok(0),
        Arrival::Refused(refusal) => Err(refusal),
    }
}

// Says a step.
fn say_step(row: Row, at: Option<usize>, answer: Stepped) -> Option<usize> {
    let arrival = answer.arrival;
    let walk = answer.walk;
    let entries = walk.entries;
    let end = lists::say_listing(row, at, found(arrival));
    row.say_bytes(end, &entries)
}

// The step after the choice that the second figure spells.
fn stepped(row: Row, at: Option<usize>) -> Option<usize> {
    let entries = rows::choice(row.figure(2));
    let walk = Walk { entries };
    say_step(row, at, walk.step(chosen_tables::table(row)))
}

// The second of two steps after that.
fn stepped_twice(row: Row, at: Option<usize>) -> Option<usize> {
    let entries = rows::choice(row.figure(2));
    let walk = Walk { entries };
    let table = chosen_tables::table(row);
    let once = walk.step(table);
    let next = once.walk;
    say_step(row, at, next.step(table))
}

// How many choices a walk from the start visits before its end, at most one more than there are for eight tasks. Each turn takes the walk that the
// last one left.
fn visited(table: Table) -> Result<usize, Refusal> {
    let mut walk = Walk::start();
    for visits in 0..40321 {
        let answer = walk.step(table);
        if found(answer.arrival)? == 0 {
            return Ok(visits);
        }
        walk = answer.walk;
    }
    Ok(40321)
}

// Two entries in one byte.
fn pair(left: u8, right: u8) -> u8 {
    left % 16 * 16 + right % 16
}

// Says a choice in the list's form.
fn say_choice(row: Row, at: Option<usize>, choice: [u8; 8]) -> Option<usize> {
    let bytes = [
        pair(choice[0], choice[1]),
        pair(choice[2], choice[3]),
        pair(choice[4], choice[5]),
        pair(choice[6], choice[7]),
    ];
    row.say_bytes(at, &bytes)
}

// Says so many choices as a walk from the start visits them.
fn say_visits(row: Row, at: Option<usize>, table: Table, visits: u64) -> Option<usize> {
    let mut walk = Walk::start();
    let mut end = at;
    for _ in 0..visits {
        walk = walk.step(table).walk;
        end = say_choice(row, end, walk.entries);
    }
    end
}

// A walk from the start to the end: what it comes to, and the first choices that it visits, so many as the second figure says.
fn walked(row: Row, at: Option<usize>) -> Option<usize> {
    let table = chosen_tables::table(row);
    let end = lists::say_listing(row, at, visited(table));
    say_visits(row, end, table, row.figure(2))
}

// The answer of a form of row.
pub fn answer(form: u8, row: Row, at: Option<usize>) -> Option<usize> {
    match form {
        b's' => stepped(row, at),
        b'd' => stepped_twice(row, at),
        b'w' => walked(row, at),
        _ => None,
    }
}
