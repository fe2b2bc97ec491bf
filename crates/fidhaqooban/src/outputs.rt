// What is put into a lent output that has room: figures, entries, counts, changes, cores, margins.
ghost use Rattle.std.specs.Prelude.{◌≡◌, ◌+◌, ◌*◌, ◌/◌, ◌%◌, ◌≤◌, length, get_or, set, take, drop, ◌++◌};
ghost use Rattle.std.proofs.lemmas.List.Edits.{sets};
ghost use Rattle.places.specs.Places.{filled_below};
ghost use Rattle.analysis.specs.Common.Entries.{no_entry};
ghost use Rattle.mend.specs.Changes.{field_number};
ghost use Rattle.fidhaqooban.specs.Numbers.{figures_of, ticks_of, entry_number, figure_in, count_numbers, change_numbers, changes_from};

use crate::answers;
use analysis::{Entry, Slack};
use mend::{Change, Field};
use replay::Counts;

// Puts a slack's figure into an output that has room: how many figures it has.
pub fn put_figure(slack: Slack, out: &mut [i32]) -> usize
    requires { 1 ≤ length out.old }
    ensures answer { result ≡ figures_of slack }
    ensures bounded { result ≤ 1 }
    ensures left { out.new ≡ figure_in slack out.old }
{
    match slack {
        Slack::Figure(ticks) => {
            out[0] = ticks;
            1
        }
        Slack::NoFigure => 0,
    }
}

// How many figures a slack has.
fn figures_of(slack: Slack) -> usize
    ensures answer { result ≡ figures_of slack }
    ensures bounded { result ≤ 1 }
{
    match slack {
        Slack::Figure(_) => 1,
        Slack::NoFigure => 0,
    }
}

// A slack's ticks, 0 where it has no figure.
fn ticks_of(slack: Slack) -> i32
    ensures { result ≡ ticks_of slack }
{
    match slack {
        Slack::Figure(ticks) => ticks,
        Slack::NoFigure => 0,
    }
}

// One of an entry's three numbers.
fn entry_number(entry: Entry, number: usize) -> i32
    ensures { result ≡ entry_number entry number }
{
    if number == 0 {
        let outcome = entry.outcome;
        return answers::time_of(outcome) as i32;
    }
    let slack = entry.slack;
    if number == 1 {
        return figures_of(slack) as i32;
    }
    ticks_of(slack)
}

// Puts three numbers for each of so many entries at the start of an output that has room.
pub fn put_entries(entries: [Entry; 8], count: usize, out: &mut [i32])
    requires few { count ≤ 8 }
    requires room { 3 * count ≤ length out.old }
    ensures { out.new ≡ filled_below (λ k. entry_number (get_or entries (k / 3) no_entry) (k % 3)) (3 * count) out.old }
{
    let end = 3 * count;
    for at in 0..end {
        out[at] = entry_number(entries[at / 3], at % 3);
    }
}

// Puts seven counts at the start of an output that has room.
pub fn put_counts(counts: Counts, out: &mut [u64])
    requires { 7 ≤ length out.old }
    ensures { out.new ≡ sets out.old 0 (count_numbers counts) }
{
    out[..7].copy_from_slice(&[
        counts.first_attempts,
        counts.backups,
        counts.idle,
        counts.released,
        counts.finished,
        counts.missed,
        counts.unfinished,
    ]);
}

// A field's number.
fn field_number(field: Field) -> u64
    ensures { result ≡ field_number field }
{
    match field {
        Field::Length => 0,
        Field::Deadline => 1,
        Field::FaultPriority => 2,
    }
}

// Puts a change's four numbers.
fn put_change(change: Change, out: &mut [u64], at: usize)
    requires { at + 4 ≤ length out.old }
    ensures { out.new ≡ sets out.old at (change_numbers change) }
{
    let field = change.field;
    out[at] = change.place as u64;
    out[at + 1] = field_number(field);
    out[at + 2] = change.old;
    out[at + 3] = change.new;
}

// Puts the number of changes and then four numbers for each at the start of an output that has room.
pub fn put_changes(list: [Change; 17], count: u8, out: &mut [u64])
    requires few { count ≤ 17 }
    requires room { 1 + 4 * count ≤ length out.old }
    ensures { out.new ≡ sets out.old 0 (changes_from list count) }
{
    out[0] = count as u64;
    for place in 0..count as usize {
        put_change(list[place], out, 1 + 4 * place);
    }
}

// Puts the first so many cores at the start of an output that has room.
pub fn put_cores(cores: [u8; 8], count: usize, out: &mut [u8])
    requires few { count ≤ 8 }
    requires room { count ≤ length out.old }
    ensures { out.new ≡ take count cores ++ drop count out.old }
{
    out[..count].copy_from_slice(&cores[..count]);
}

// Puts a margin.
pub fn put_margin(margin: i64, out: &mut [i64])
    requires { 1 ≤ length out.old }
    ensures { out.new ≡ set out.old 0 margin }
{
    out[0] = margin;
}
