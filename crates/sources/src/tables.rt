// What keeps the figures of a text from being a sheet in words: a scale that does not fit, or a rule that their table breaks.
use crate::quoting;
use intake::explanation::say;
use lines::{Figures, Task};
use sheet::{Record, Table};
use text::Fitted;

// Whether a priority of a task is above the count.
fn is_above(task: &Task, count: u8) -> bool {
    let most = u64::from(count);
    most < task.numbers[0] || most < task.numbers[1]
}

// The first place of a task with a priority above the count, or the count.
fn first_high(figures: Figures) -> usize {
    let count = figures.count as usize;
    let mut tasks = figures.tasks.iter().take(count);
    tasks
        .position(|task| is_above(task, figures.count))
        .unwrap_or(count)
}

// Writes the line of the task at a place and its name.
fn say_task_at(tasks: [Task; 8], place: usize) {
    let Some(task) = tasks.get(place) else {
        return;
    };
    say(b"line ");
    quoting::say_number(task.line);
    if task.name.length != 0 {
        say(b", ");
        quoting::say_task(task.name);
    }
    say(b": ");
}

// Writes a number under its name and what it is above.
fn say_above(called: &[u8], number: u64, above: &[u8], most: u64) {
    say(called);
    say(b" ");
    quoting::say_number(number);
    if number == 0 {
        say(b" is below 1");
        return;
    }
    say(b" is above ");
    say(above);
    say(b" ");
    quoting::say_number(most);
}

// Writes what is wrong with a priority among so many tasks.
fn say_priority(priority: u64, count: u64) {
    if (priority == 0) | (count < priority) {
        say_above(b"the priority", priority, b"the number of tasks,", count);
        return;
    }
    say(b"the priority ");
    quoting::say_number(priority);
    say(b" is an earlier task's, and each is used once");
}

// Writes the rule that a record among so many breaks.
fn say_record_rule(record: Record, count: u8, refusal: u8) {
    let cost = record.cost as u64;
    let backup = record.backup as u64;
    let deadline = record.deadline as u64;
    let period = record.period as u64;
    let priority = record.priority as u64;
    let fault = record.fault_priority as u64;
    match refusal {
        6 => say_above(b"the cost", cost, b"the deadline,", deadline),
        7 => say_above(b"the backup", backup, b"the deadline,", deadline),
        8 => say_above(b"the deadline", deadline, b"the period,", period),
        9 => say_priority(priority, count as u64),
        _ => say_above(b"the fault priority", fault, b"the priority,", priority),
    }
}

// Writes the rule that a table breaks.
fn say_rule(figures: Figures, table: Table, refusal: u8) {
    match refusal {
        2 => say(b"there is no task, and a sheet has 1 to 8"),
        5 => say(b"the fault interval is 0, and must be 1 at least"),
        18 => say(
            b"the share is 0 or not below the round; a whole processor is a text without both",
        ),
        _ => {
            let place = match sheet::judge_table_at(table) {
                Ok(()) => 0,
                Err(broken) => broken.place,
            };
            if let Some(record) = table.records.get(place) {
                say_task_at(figures.tasks, place);
                say_record_rule(*record, table.count, refusal);
            }
        }
    }
}

// Writes why a number is too large, and at which scale all fit.
fn say_too_large(figures: Figures, least: u64) {
    if least != 0 {
        say(b"a number is above 65,535, the largest of a sheet; --scale ");
        quoting::say_number(least);
        say(b" makes all fit");
        return;
    }
    say_task_at(figures.tasks, first_high(figures));
    say(b"a priority or fault priority is above the number of tasks, ");
    quoting::say_number(figures.count as u64);
}

// Prints why the figures of an input are no sheet at a scale.
pub fn print(input: &[u8], figures: Figures, scale: u64, fitted: Fitted) {
    say(b"desk: ");
    quoting::say_input(input);
    say(b": ");
    match fitted.refusal {
        31 => say_too_large(figures, fitted.least),
        45 => say(b"the scale does not divide round and share, which cannot be rounded"),
        46 => say(b"a scale is 1 at least"),
        refusal => say_rule(figures, text::unjudged(figures, scale), refusal),
    }
    say(b"\n");
}

// Prints the size of a tick where it is not the text's.
pub fn print_scale(scale: u64) {
    if scale == 1 {
        return;
    }
    say(b"desk: a tick is ");
    quoting::say_number(scale);
    say(b" of the text's; costs and backups are rounded up, other times down\n");
}

// Prints which columns were filled in.
pub fn print_filled(input: &[u8], filled: u8) {
    if filled == 0 {
        return;
    }
    say(b"desk: ");
    quoting::say_input(input);
    match filled {
        1 => say(b": without a fault column each fault priority is the task's own\n"),
        2 => say(b": without a deadline column each deadline is the period\n"),
        _ => say(
            b": without fault and deadline columns each fault priority is the task's own, each deadline the period\n",
        ),
    }
}
