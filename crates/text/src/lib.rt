// Sheets as text: what a person types or pastes from a spreadsheet, read in pieces of any length, scaled to a table, and the text of a table.
// Every call answers any bytes, scans, figures and tables; a refusal gives its number, with its place where it is the text's own, and zeros beside it.
#![tactic(auto)]

ghost use Rattle.std.specs.Prelude.{◌≡◌};
ghost use Rattle.text.specs.Texts.{scan_start, scanned};
ghost use Rattle.text.specs.Answers.{understood, read_answer, show_answer, show_leaves};
ghost use Rattle.text.specs.Named.{named_answer, named_leaves};
ghost use Rattle.text.specs.Scaling.{unjudged_by, scaled_by};

use cells::Name;
use lines::{Figures, Reading, Understood};
use places::refusal;
use sheet::Table;

mod gathering;
mod naming;
mod page;
mod scaling;

// A text so far: what its lines said, and the line that is being gathered: its number, how many bytes of it are held, whether a double
// quote is open, whether it is in a comment, whether it has more bytes than are held, and these.
#[derive(Clone, Copy)]
pub struct Scan {
    pub reading: Reading,
    pub line: u64,
    pub held: usize,
    pub quoted: bool,
    pub comment: bool,
    pub over: bool,
    pub bytes: [u8; 512],
}

// What `scaled` answers: 0 beside the table, or the refusal, for 31 beside the least scale that makes all fit.
#[derive(Clone, Copy)]
pub struct Fitted {
    pub refusal: u8,
    pub least: u64,
    pub table: Table,
}

// A name in quotes as it is being put: how many bytes there are, and these, blanks after them.
#[derive(Clone, Copy)]
pub struct Quote {
    pub at: usize,
    pub bytes: [u8; 66],
}

// What `show` answers: the refusal, or 0 beside the number of bytes written.
#[derive(Clone, Copy)]
pub struct Shown {
    pub refusal: u8,
    pub size: usize,
}

impl Scan {
    // The scan of no text.
    pub fn start() -> Scan
        ensures { result ≡ scan_start }
    {
        Scan {
            reading: lines::no_reading(),
            line: 1,
            held: 0,
            quoted: false,
            comment: false,
            over: false,
            bytes: [0u8; 512],
        }
    }

    // The scan after a further part of the text.
    pub fn take(self, part: &[u8]) -> Scan
        ensures { result ≡ scanned self part.now }
    {
        let mut scan = self;
        for &byte in part {
            scan = gathering::step(scan, byte);
        }
        scan
    }

    // What the text is understood as, now that it ends.
    pub fn finish(self) -> Understood
        ensures { result ≡ understood self }
    {
        gathering::understood(self)
    }
}

// What a whole text is understood as.
pub fn read(text: &[u8]) -> Understood
    ensures { result ≡ read_answer text.now }
{
    Scan::start().take(text).finish()
}

// The table of figures at a scale.
pub fn scaled(figures: Figures, scale: u64) -> Fitted
    ensures { result ≡ scaled_by figures scale }
{
    scaling::scaled(figures, scale)
}

// The table of figures at a scale, whatever rules it breaks and whatever does not fit; of zeros at a scale of 0.
pub fn unjudged(figures: Figures, scale: u64) -> Table
    ensures { result ≡ unjudged_by figures scale }
{
    if scale == 0 {
        return scaling::no_table();
    }
    scaling::scaled_table(figures, scale)
}

// Writes a good table's text at the start of the output.
pub fn show(table: Table, out: &mut [u8]) -> Shown
    ensures { (result ≡ show_answer table out.old) × (out.new ≡ show_leaves table out.old) }
{
    let broken = refusal::told(sheet::judge_table(table));
    if broken != 0 {
        return Shown {
            refusal: broken,
            size: 0,
        };
    }
    let size = page::size(table.round, table.share, table.count);
    if out.len() < size {
        return Shown {
            refusal: 11,
            size: 0,
        };
    }
    page::put_table(out, table);
    Shown { refusal: 0, size }
}

// Writes a good table's text with its tasks' names at the start of the output.
pub fn show_named(table: Table, names: [Name; 8], out: &mut [u8]) -> Shown
    ensures { (result ≡ named_answer table out.old) × (out.new ≡ named_leaves table names out.old) }
{
    let broken = refusal::told(sheet::judge_table(table));
    if broken != 0 {
        return Shown {
            refusal: broken,
            size: 0,
        };
    }
    let size = naming::size(table.round, table.share, table.count);
    if out.len() < size {
        return Shown {
            refusal: 11,
            size: 0,
        };
    }
    naming::put_table(out, table, names);
    Shown { refusal: 0, size }
}
