// The choices of a sheet that hold by a rule, one after another and all at once, as the numbers of C.
ghost use Rattle.std.specs.Prelude.{◌≡◌};
ghost use Rattle.fidhaqooban.specs.Answers.{next_by, listed_by, listed_left};

use crate::{answers, given};
use analysis::Rule;
use choices::Walk;

// The next choice after another, 0 at the end.
pub fn next_by(sheet: &[u8], after: u32, rule: Rule) -> i64
    ensures { result ≡ next_by rule sheet.now after }
{
    let table = match sheet::read(sheet) {
        Ok(table) => table,
        Err(refusal) => return answers::refused(refusal),
    };
    let entries = given::entries_of(after);
    let walk = Walk { entries };
    answers::step_of(walk.step_by(table, rule))
}

// Writes every choice: how many.
pub fn list_by(sheet: &[u8], out: &mut [u8], rule: Rule) -> i64
    ensures answer { result ≡ listed_by rule sheet.now out.old }
    ensures left { out.new ≡ listed_left rule sheet.now out.old }
{
    let table = match sheet::read(sheet) {
        Ok(table) => table,
        Err(refusal) => return answers::refused(refusal),
    };
    answers::number(choices::list_by(table, out, rule))
}
