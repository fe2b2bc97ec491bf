// Figures of any size as a table's.
ghost use Rattle.std.specs.Prelude.{◌≡◌, ◌<◌, ◌≤◌, min};
ghost use Rattle.sheet.specs.Layout.{no_record, no_table};
ghost use Rattle.text.specs.Scaling.{up, least_up, least_down, least_of, is_high, least_first, least_below, high_below, least_scale, scaled_task, records_below, share_scale, scaled_table, divides, not_scaled, judged, scaled_fit, scaled_by};

use crate::Fitted;
use lines::{Figures, Task};
use places::refusal;
use sheet::{Record, Table};

// A number divided and rounded up.
fn up(number: u64, scale: u64) -> u64
    requires { 0 < scale }
    ensures { result ≡ up number scale }
{
    number.div_ceil(scale)
}

// The least scale at which a number that is rounded up fits sixteen bits.
fn least_up(number: u64) -> u64
    ensures { result ≡ least_up number }
{
    up(number, 65535)
}

// The least scale at which one that is rounded down does.
fn least_down(number: u64) -> u64
    ensures { result ≡ least_down number }
{
    number / 65536 + 1
}

// The least scale of a task.
fn least_of(task: Task) -> u64
    ensures { result ≡ least_of task }
{
    let numbers = task.numbers;
    let costs = least_up(numbers[2]).max(least_up(numbers[3]));
    let times = least_down(numbers[4]).max(least_down(numbers[5]));
    costs.max(times)
}

// Whether a priority is above four bits.
fn is_high(task: Task) -> bool
    ensures { result ≡ is_high task }
{
    let numbers = task.numbers;
    (15 < numbers[0]) | (15 < numbers[1])
}

// The least scale of the interval, round and share.
fn least_first(figures: Figures) -> u64
    ensures { result ≡ least_first figures }
{
    let shared = least_up(figures.round).max(least_up(figures.share));
    least_down(figures.interval).max(shared)
}

// A least scale with those of the first tasks.
fn least_below(first: u64, tasks: [Task; 8], count: usize) -> u64
    requires { count ≤ 8 }
    ensures { result ≡ least_below first tasks count }
{
    tasks[..count]
        .iter()
        .fold(first, |least, task| least.max(least_of(*task)))
}

// Whether some priority is above four bits.
fn high_below(tasks: [Task; 8], count: usize) -> bool
    requires { count ≤ 8 }
    ensures { result ≡ high_below tasks count }
{
    tasks[..count].iter().any(|task| is_high(*task))
}

// The least scale that makes all fit, or 0.
fn least_scale(figures: Figures) -> u64
    ensures { result ≡ least_scale figures }
{
    let count = (figures.count as usize).min(8);
    let tasks = figures.tasks;
    if high_below(tasks, count) {
        return 0;
    }
    least_below(least_first(figures), tasks, count)
}

// A number in sixteen bits.
fn narrow(number: u64) -> u16
    ensures { result ≡ min number 65535 }
{
    number.min(65535) as u16
}

// A number in four bits.
fn four_bits(number: u64) -> u8
    ensures { result ≡ min number 15 }
{
    number.min(15) as u8
}

// A task's record at a scale.
fn scaled_task(task: Task, scale: u64) -> Record
    requires { 0 < scale }
    ensures { result ≡ scaled_task task scale }
{
    let numbers = task.numbers;
    Record {
        cost: narrow(up(numbers[2], scale)),
        backup: narrow(up(numbers[3], scale)),
        deadline: narrow(numbers[4] / scale),
        period: narrow(numbers[5] / scale),
        priority: four_bits(numbers[0]),
        fault_priority: four_bits(numbers[1]),
    }
}

// A record of zeros.
fn no_record() -> Record
    ensures { result ≡ no_record }
{
    Record {
        cost: 0,
        backup: 0,
        deadline: 0,
        period: 0,
        priority: 0,
        fault_priority: 0,
    }
}

// The records of the first tasks.
fn records_below(tasks: [Task; 8], scale: u64, count: usize) -> [Record; 8]
    requires above { 0 < scale }
    requires few { count ≤ 8 }
    ensures { result ≡ records_below tasks scale count }
{
    let mut records = [no_record(); 8];
    for place in 0..count {
        records[place] = scaled_task(tasks[place], scale);
    }
    records
}

// What round and share are divided by at a scale: a whole processor stays whole.
fn share_scale(figures: Figures, scale: u64) -> u64
    requires { 0 < scale }
    ensures value { result ≡ share_scale figures scale }
    ensures above { 0 < result }
{
    if (figures.round == 1) & (figures.share == 1) {
        return 1;
    }
    scale
}

// The table of the figures at a scale.
pub fn scaled_table(figures: Figures, scale: u64) -> Table
    requires { 0 < scale }
    ensures { result ≡ scaled_table figures scale }
{
    let count = (figures.count as usize).min(8);
    let tasks = figures.tasks;
    let shared = share_scale(figures, scale);
    Table {
        count: figures.count,
        interval: narrow(figures.interval / scale),
        round: narrow(figures.round / shared),
        share: narrow(figures.share / shared),
        records: records_below(tasks, scale, count),
    }
}

// A table of zeros.
pub fn no_table() -> Table
    ensures { result ≡ no_table }
{
    Table {
        count: 0,
        interval: 0,
        round: 0,
        share: 0,
        records: [no_record(); 8],
    }
}

// Refused beside the least scale that would do.
fn not_scaled(refusal: u8, least: u64) -> Fitted
    ensures { result ≡ not_scaled refusal least }
{
    Fitted {
        refusal,
        least,
        table: no_table(),
    }
}

// A table that is good, or the number of the rule that it breaks.
fn judged(table: Table) -> Fitted
    ensures { result ≡ judged table }
{
    let refusal = refusal::told(sheet::judge_table(table));
    if refusal != 0 {
        return not_scaled(refusal, 0);
    }
    Fitted {
        refusal: 0,
        least: 0,
        table,
    }
}

// The table where all fits.
fn scaled_fit(figures: Figures, scale: u64) -> Fitted
    requires { 0 < scale }
    ensures { result ≡ scaled_fit figures scale }
{
    let shared = share_scale(figures, scale);
    if (figures.round % shared == 0) & (figures.share % shared == 0) {
        return judged(scaled_table(figures, scale));
    }
    not_scaled(45, 0)
}

// The table of figures at a scale.
pub fn scaled(figures: Figures, scale: u64) -> Fitted
    ensures { result ≡ scaled_by figures scale }
{
    if scale == 0 {
        return not_scaled(46, 0);
    }
    let least = least_scale(figures);
    if (least == 0) | (scale < least) {
        return not_scaled(31, least);
    }
    scaled_fit(figures, scale)
}
