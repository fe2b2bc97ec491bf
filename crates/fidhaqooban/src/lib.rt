// The desk for firmware: its calls under the names and in the numbers of C. A refused call answers minus the refusal number.
// Each function is thin: it reads the sheet, asks the crate that answers, and turns the answer into a number.
#![tactic(auto)]

ghost use Rattle.std.specs.Prelude.{◌≡◌};
ghost use Rattle.sheet.specs.Rules.{sheet_refusal};
ghost use Rattle.fidhaqooban.specs.Answers.{write_shared_number, write_shared_left, write_number, write_left, rewrite_number, rewrite_left, record_number, response_number, slack_number, slack_left, verdict_number, times_number, times_left, interval_number, next_number, list_number, list_left, assured_number, assured_next_number, assured_list_number, assured_list_left, replay_number, replay_left, check_number, mend_number, mend_left, mend_listed, cores_number, cores_left, release_number};
ghost use Rattle.fidhaqooban.specs.Locking.{given_request, granting_of, lock_number, lock_left};

use analysis::Rule;
use cores::Placing;
use locks::Request;
use places::refusal;
use replay::Checked;

mod answers;
mod choosing;
mod given;
mod locking;
mod outputs;

// 0 where the sheet is good, or the refusal.
#[unsafe(no_mangle)]
pub extern "C" fn fq_judge(sheet: &[u8]) -> u8
    ensures { result ≡ sheet_refusal sheet.now }
{
    refusal::told(sheet::judge(sheet))
}

// Writes the sheet of a count, an interval, a round, our share of it and six numbers for each record: how many bytes.
#[unsafe(no_mangle)]
pub extern "C" fn fq_write_shared(
    count: u8,
    interval: u16,
    round: u16,
    share: u16,
    fields: &[u16],
    out: &mut [u8],
) -> i64
    ensures answer { result ≡ write_shared_number count interval round share fields.now out.old }
    ensures left { out.new ≡ write_shared_left count interval round share fields.now out.old }
{
    let writing = sheet::write(given::table(count, interval, round, share, fields), out);
    answers::number(writing)
}

// The same for the whole processor.
#[unsafe(no_mangle)]
pub extern "C" fn fq_write(count: u8, interval: u16, fields: &[u16], out: &mut [u8]) -> i64
    ensures answer { result ≡ write_number count interval fields.now out.old }
    ensures left { out.new ≡ write_left count interval fields.now out.old }
{
    fq_write_shared(count, interval, 1, 1, fields, out)
}

// Reads a sheet and writes it again: how many bytes.
#[unsafe(no_mangle)]
pub extern "C" fn fq_rewrite(sheet: &[u8], out: &mut [u8]) -> i64
    ensures answer { result ≡ rewrite_number sheet.now out.old }
    ensures left { out.new ≡ rewrite_left sheet.now out.old }
{
    let rewriting = sheet::rewrite(sheet, out);
    answers::number(rewriting)
}

// Where the nine bytes of the record at a place start.
#[unsafe(no_mangle)]
pub extern "C" fn fq_record(sheet: &[u8], place: usize) -> i64
    ensures { result ≡ record_number sheet.now place }
{
    let found = sheet::record_start(sheet, place);
    answers::number(found)
}

// The response time of the record at a place, 0 where it is late.
#[unsafe(no_mangle)]
pub extern "C" fn fq_response(sheet: &[u8], place: usize) -> i64
    ensures { result ≡ response_number sheet.now place }
{
    match analysis::time_in(sheet, place, Rule::Published) {
        Ok(entry) => answers::answer(0, answers::time_of(entry.outcome)),
        Err(refusal) => answers::refused(refusal),
    }
}

// Puts the slack of the record at a place, the deadline less the response time, into the output: 1, or 0 where there is no figure.
#[unsafe(no_mangle)]
pub extern "C" fn fq_slack(sheet: &[u8], place: usize, out: &mut [i32]) -> i64
    ensures answer { result ≡ slack_number sheet.now place out.old }
    ensures left { out.new ≡ slack_left sheet.now place out.old }
{
    let entry = match analysis::time_in(sheet, place, Rule::Published) {
        Ok(entry) => entry,
        Err(refusal) => return answers::refused(refusal),
    };
    if out.len() == 0 {
        return answers::answer(11, 0);
    }
    answers::answer(0, outputs::put_figure(entry.slack, out))
}

// 1 where the sheet passes, 0 where it does not.
#[unsafe(no_mangle)]
pub extern "C" fn fq_verdict(sheet: &[u8]) -> i64
    ensures { result ≡ verdict_number sheet.now }
{
    match analysis::assess_in(sheet, Rule::Published) {
        Ok(assessment) => answers::answer(0, assessment.passes as usize),
        Err(refusal) => answers::refused(refusal),
    }
}

// Puts each record's response time, whether its slack has a figure, and the slack into the output: 1 where the sheet passes, 0 where it does not.
#[unsafe(no_mangle)]
pub extern "C" fn fq_times(sheet: &[u8], out: &mut [i32]) -> i64
    ensures answer { result ≡ times_number sheet.now out.old }
    ensures left { out.new ≡ times_left sheet.now out.old }
{
    let table = match sheet::read(sheet) {
        Ok(table) => table,
        Err(refusal) => return answers::refused(refusal),
    };
    let count = table.count as usize;
    if out.len() < 3 * count {
        return answers::answer(11, 0);
    }
    match analysis::assess(table) {
        Ok(assessed) => {
            outputs::put_entries(assessed.entries, count, out);
            answers::answer(0, assessed.passes as usize)
        }
        Err(refusal) => answers::refused(refusal),
    }
}

// The least interval at which the sheet passes, 0 where there is none.
#[unsafe(no_mangle)]
pub extern "C" fn fq_least_interval(sheet: &[u8]) -> i64
    ensures { result ≡ interval_number sheet.now }
{
    match sheet::read(sheet) {
        Ok(table) => answers::interval_of(analysis::least_interval(table)),
        Err(refusal) => answers::refused(refusal),
    }
}

// The next passing choice after another, 0 at the end.
#[unsafe(no_mangle)]
pub extern "C" fn fq_next(sheet: &[u8], after: u32) -> i64
    ensures { result ≡ next_number sheet.now after }
{
    choosing::next_by(sheet, after, Rule::Published)
}

// Writes every passing choice: how many.
#[unsafe(no_mangle)]
pub extern "C" fn fq_list(sheet: &[u8], out: &mut [u8]) -> i64
    ensures answer { result ≡ list_number sheet.now out.old }
    ensures left { out.new ≡ list_left sheet.now out.old }
{
    choosing::list_by(sheet, out, Rule::Published)
}

// The assured time of the record at a place, 0 where it has none.
#[unsafe(no_mangle)]
pub extern "C" fn fq_assured_response(sheet: &[u8], place: usize) -> i64
    ensures { result ≡ assured_number sheet.now place }
{
    match analysis::time_in(sheet, place, Rule::Assured) {
        Ok(entry) => answers::answer(0, answers::time_of(entry.outcome)),
        Err(refusal) => answers::refused(refusal),
    }
}

// The next assured choice after another, 0 at the end.
#[unsafe(no_mangle)]
pub extern "C" fn fq_assured_next(sheet: &[u8], after: u32) -> i64
    ensures { result ≡ assured_next_number sheet.now after }
{
    choosing::next_by(sheet, after, Rule::Assured)
}

// Writes every assured choice: how many.
#[unsafe(no_mangle)]
pub extern "C" fn fq_assured_list(sheet: &[u8], out: &mut [u8]) -> i64
    ensures answer { result ≡ assured_list_number sheet.now out.old }
    ensures left { out.new ≡ assured_list_left sheet.now out.old }
{
    choosing::list_by(sheet, out, Rule::Assured)
}

// Replays a log: 0, with its seven counts at the start of the output.
#[unsafe(no_mangle)]
pub extern "C" fn fq_replay(sheet: &[u8], log: &[u8], counts: &mut [u64]) -> i64
    ensures answer { result ≡ replay_number sheet.now log.now counts.old }
    ensures left { counts.new ≡ replay_left sheet.now log.now counts.old }
{
    let replayed = replay::replay(sheet, log);
    if replayed.refusal != 0 {
        return answers::answer(replayed.refusal, 0);
    }
    if counts.len() < 7 {
        return answers::answer(11, 0);
    }
    let counted = replayed.counts;
    outputs::put_counts(counted, counts);
    answers::answer(0, 0)
}

// Checks a supplier's record: how many ticks from its start show what the rules say, all of them where it is accepted.
#[unsafe(no_mangle)]
pub extern "C" fn fq_check(sheet: &[u8], supplied: &[u8]) -> i64
    ensures { result ≡ check_number sheet.now supplied.now }
{
    match replay::check(sheet, supplied) {
        Checked::Refused(refusal) => answers::answer(refusal, 0),
        Checked::Accepted => answers::answer(0, supplied.len() / 3),
        Checked::Differs(tick) => answers::answer(0, tick as usize),
    }
}

// Whether a sporadic task may have a resource beside started jobs: 1 or 0, with the margin in the output.
#[unsafe(no_mangle)]
pub extern "C" fn fq_grant(
    period: u32,
    count: u8,
    starts: &[u32],
    uses: &[u8],
    resources: &[u8],
    priority: u8,
    time: u64,
    resource: u8,
    length: u32,
    margin: &mut [i64],
) -> i64
    ensures answer { result ≡ lock_number (granting_of period count starts.now uses.now resources.now (given_request priority time resource length)) margin.old }
    ensures left { margin.new ≡ lock_left (granting_of period count starts.now uses.now resources.now (given_request priority time resource length)) margin.old }
{
    let request = Request {
        priority,
        time,
        resource,
        length,
    };
    let granting = locks::grant(
        locking::starts(period, count, starts, uses),
        locking::resources(resources),
        request,
    );
    if granting.refusal != 0 {
        return answers::answer(granting.refusal, 0);
    }
    if margin.len() == 0 {
        return answers::answer(11, 0);
    }
    outputs::put_margin(granting.margin, margin);
    answers::answer(0, granting.granted as usize)
}

// Mends a sheet: how many bytes of it were written, with the number of changes and four numbers for each in the second output.
#[unsafe(no_mangle)]
pub extern "C" fn fq_mend(sheet: &[u8], out: &mut [u8], changes: &mut [u64]) -> i64
    ensures answer { result ≡ mend_number sheet.now out.old changes.old }
    ensures left { out.new ≡ mend_left sheet.now out.old changes.old }
    ensures listed { changes.new ≡ mend_listed sheet.now out.old changes.old }
{
    let mut longest = [0u8; 79];
    let mending = match mend::mend(sheet, &mut longest) {
        Ok(mending) => mending,
        Err(refusal) => return answers::refused(refusal),
    };
    let size = mending.written;
    if out.len() < size {
        return answers::answer(11, 0);
    }
    let listed = mending.changes;
    if changes.len() < 1 + 4 * listed.count as usize {
        return answers::answer(11, 0);
    }
    let list = listed.list;
    out[..size].copy_from_slice(&longest[..size]);
    outputs::put_changes(list, listed.count, changes);
    answers::answer(0, size)
}

// Puts each record on a core: 0, with each record's core from 1 at the start of the output, or the first record from 1 that fits none.
#[unsafe(no_mangle)]
pub extern "C" fn fq_cores(sheet: &[u8], number: u8, out: &mut [u8]) -> i64
    ensures answer { result ≡ cores_number sheet.now number out.old }
    ensures left { out.new ≡ cores_left sheet.now number out.old }
{
    let placing = match cores::place(sheet, number) {
        Ok(placing) => placing,
        Err(refusal) => return answers::refused(refusal),
    };
    match placing {
        Placing::FitsNone(first) => answers::answer(0, first as usize),
        Placing::Everyone(cores) => {
            let count = given::count(sheet);
            if out.len() < count {
                return answers::answer(11, 0);
            }
            outputs::put_cores(cores, count, out);
            answers::answer(0, 0)
        }
    }
}

// Whether the candidate is to be loaded in place of the sheet in use: 1, or 0 to keep the one in use.
#[unsafe(no_mangle)]
pub extern "C" fn fq_release(in_use: &[u8], candidate: &[u8], protected_places: u8) -> i64
    ensures { result ≡ release_number in_use.now candidate.now protected_places }
{
    let decision = release::decide(in_use, candidate, protected_places);
    match decision {
        Ok(loads) => answers::answer(0, loads as usize),
        Err(refusal) => answers::refused(refusal),
    }
}
