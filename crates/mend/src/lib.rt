// Hand-typed sheets mended: bytes after the last record cut, deadlines brought down to their period, fault priorities brought to the task's
// own; each change listed, and nothing else touched.
// The call answers any bytes; where a rule is still broken, with the refusal of the first.
#![tactic(auto)]

ghost use Rattle.std.specs.Prelude.{◌≡◌};
ghost use Rattle.places.specs.Answered.{answered};
ghost use Rattle.mend.specs.Answers.{mend_answer, mend_leaves, mending_told};

use places::refusal::Refusal;

mod listing;
mod records;

// What a change is made to: the sheet's length, or a record's deadline or fault priority.
#[derive(Clone, Copy)]
pub enum Field {
    Length,
    Deadline,
    FaultPriority,
}

// One change: the record's place, from 1, or 0 for the length; the field; its old and its new value.
#[derive(Clone, Copy)]
pub struct Change {
    pub place: u8,
    pub field: Field,
    pub old: u64,
    pub new: u64,
}

// How many changes there are, and room for seventeen; those past the count are zero.
#[derive(Clone, Copy)]
pub struct Changes {
    pub count: u8,
    pub list: [Change; 17],
}

// What `mend` answers where nothing is refused: the number of bytes written and the changes.
#[derive(Clone, Copy)]
pub struct Mending {
    pub written: usize,
    pub changes: Changes,
}

// Writes the mended sheet at the start of the output.
pub fn mend(sheet: &[u8], out: &mut [u8]) -> Result<Mending, Refusal>
    ensures answer { result ≡ answered (mend_answer sheet.now out.old).refusal (mending_told (mend_answer sheet.now out.old)) }
    ensures leaves { out.new ≡ mend_leaves sheet.now out.old }
{
    let end = records::kept(sheet);
    let table = sheet::read_unjudged(&sheet[..end])?;
    let written = sheet::write(records::mended_table(table), out)?;
    let changes = listing::changes_of(sheet.len(), end, table);
    Ok(Mending { written, changes })
}
