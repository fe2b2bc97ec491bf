// The rules that sheets and tables are judged by, 1 to 10, 18 and 19, as code: over a sheet's header, over the nine bytes of a record within the sheet, and over a table's records.
// Which priorities earlier records have is kept as sixteen marks, one for each value of the sheet's four bits.
ghost use Rattle.std.specs.Prelude.{◌≡◌, true, false, ◌≤◌, length, get_or};
ghost use Rattle.places.specs.Answered.{answered};
ghost use Rattle.sheet.specs.Layout.{count_of, edition_of, size_of, record_of, sheet_record, record_at};
ghost use Rattle.sheet.specs.Rules.{outside, wrong_share, refusal_of, size_refusal, header_refusal, records_refusal, records_judged, shared_refusal};
ghost use Rattle.sheet.specs.Answers.{broken_at};

use crate::{Broken, Record, Table, layout};
use places::refusal::Refusal;

// Whether a number is 0 or above the limit.
pub fn outside(x: u16, limit: u16) -> bool
    ensures { result ≡ outside x limit }
{
    if x == 0 {
        return true;
    }
    limit < x
}

// Whether the share is zero or not below the round, in the edition that has them.
pub fn wrong_share(edition: u8, round: u16, share: u16) -> bool
    ensures { result ≡ wrong_share edition round share }
{
    if edition == 0 {
        return false;
    }
    if share == 0 {
        return true;
    }
    round <= share
}

// Rules 1 to 3: what keeps a header from saying how long its sheet is.
pub fn judge_size(sheet: &[u8]) -> Result<(), Refusal>
    ensures { result ≡ answered (size_refusal sheet.now) tt }
{
    if sheet.len() < 3 {
        return Err(Refusal::ShortSheet);
    }
    let count = layout::count(sheet);
    if outside(count as u16, 8) {
        return Err(Refusal::BadCount);
    }
    let edition = layout::edition(sheet);
    if 1 < edition {
        return Err(Refusal::ReservedBits);
    }
    Ok(())
}

// Rules 1 to 5, with 1 again after 3, and 18; of a good header the count.
pub fn judge_header(sheet: &[u8]) -> Result<u8, Refusal>
    ensures { result ≡ answered (header_refusal sheet.now) (count_of sheet.now) }
{
    judge_size(sheet)?;
    let edition = layout::edition(sheet);
    if sheet.len() < layout::header_size(edition) {
        return Err(Refusal::ShortSheet);
    }
    let count = layout::count(sheet);
    if sheet.len() != layout::size(edition, count) {
        return Err(Refusal::BadLength);
    }
    if layout::interval(sheet) == 0 {
        return Err(Refusal::NoInterval);
    }
    if wrong_share(edition, layout::round(sheet), layout::share(sheet)) {
        return Err(Refusal::BadShare);
    }
    Ok(count)
}

// Whether the priority is marked; a priority that no mark is kept for is not.
fn is_marked(marks: &[bool; 16], priority: u8) -> bool
    requires { length marks.now ≡ 16 }
    ensures { result ≡ get_or marks.now priority false }
{
    let value = priority as usize;
    if value < 16 { marks[value] } else { false }
}

// Rules 6 to 10 on the fields of one record.
fn judge_fields(task: Record, count: u8, is_taken: bool) -> Result<(), Refusal>
    ensures { result ≡ answered (refusal_of count is_taken task) tt }
{
    if outside(task.cost, task.deadline) {
        return Err(Refusal::BadCost);
    }
    if outside(task.backup, task.deadline) {
        return Err(Refusal::BadBackup);
    }
    if task.period < task.deadline {
        return Err(Refusal::BadDeadline);
    }
    if outside(task.priority as u16, count as u16) {
        return Err(Refusal::BadPriority);
    }
    if is_taken {
        return Err(Refusal::BadPriority);
    }
    if outside(task.fault_priority as u16, task.priority as u16) {
        return Err(Refusal::BadFaultPriority);
    }
    Ok(())
}

// Rules 6 to 10 for one record of a sheet, given its nine bytes from within the sheet.
fn judge_record(part: &[u8], count: u8, is_taken: bool) -> Result<(), Refusal>
    requires { length part.now ≡ 9 }
    ensures { result ≡ answered (refusal_of count is_taken (record_of part.now)) tt }
{
    judge_fields(layout::record_from(part), count, is_taken)
}

// Rules 6 to 10 for each record of a sheet of the right length, in order, part by part.
pub fn judge_parts(sheet: &[u8], count: u8) -> Result<(), Refusal>
    requires few { count ≤ 8 }
    requires sized { length sheet.now ≡ size_of (edition_of sheet.now) count }
    ensures { result ≡ answered (records_refusal count (sheet_record sheet.now)) tt }
{
    let first = layout::start(sheet);
    let mut marks = [false; 16];
    for place in 0..count as usize {
        let begin = first + 9 * place;
        let end = begin + 9;
        let part = &sheet[begin..end];
        let priority = layout::priority_from(part);
        judge_record(part, count, is_marked(&marks, priority))?;
        let value = priority as usize;
        marks[value] = true;
    }
    Ok(())
}

// The same for the records of a table, those past the count ignored; with the place of the one that breaks a rule.
pub fn judge_records(records: [Record; 8], count: u8) -> Result<(), Broken>
    requires { count ≤ 8 }
    ensures { result ≡ broken_at (records_judged count (record_at records)) }
{
    let mut marks = [false; 16];
    for place in 0..count as usize {
        let task = records[place];
        if let Err(refusal) = judge_fields(task, count, is_marked(&marks, task.priority)) {
            return Err(Broken { refusal, place });
        }
        let value = task.priority as usize;
        marks[value] = true;
    }
    Ok(())
}

// Whether a whole processor is there, and not a shared one.
pub fn judge_shared(table: Table) -> Result<(), Refusal>
    ensures { result ≡ answered (shared_refusal table) tt }
{
    if crate::is_whole(table.round, table.share) {
        Ok(())
    } else {
        Err(Refusal::SharedProcessor)
    }
}
