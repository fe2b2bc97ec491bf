// A refusal in words, on standard error.
ghost use Rattle.std.specs.Prelude.{◌≡◌, ◌+◌};
ghost use Rattle.sheet.specs.Rules.{broken_place};

use sheet::Table;
use streams::descriptors::STDERR_FILENO;

// Writes a part of the line. Parts are written by themselves, since what is quoted of an input need not be text.
pub fn say(words: &[u8]) {
    io::write_all(STDERR_FILENO, words);
}

// Writes the sentence of a sheet's rule.
fn say_rule(refusal: u8) {
    match refusal {
        1 => say(b"the sheet has fewer than 3 bytes, or fewer than 7 in the edition with a share"),
        2 => say(b"the task count, the first four bits, is 0 or above 8"),
        3 => say(b"the reserved bits, the second four, are above 1"),
        4 => say(
            b"the length is not 3 bytes, or 7 in the edition with a share, and 9 for each task",
        ),
        5 => say(b"the fault interval E is 0"),
        6 => say(b"the cost C is 0 or above the deadline D"),
        7 => say(b"the backup cost B is 0 or above the deadline D"),
        8 => say(b"the deadline D is above the period T"),
        9 => say(b"the priority p is outside 1 to the task count, or an earlier record has it"),
        10 => say(b"the fault priority q is outside 1 to the priority p"),
        18 => say(b"the share S is 0 or not below the round Q"),
        _ => say_other_rule(refusal),
    }
}

// Writes the sentence of a rule that is not a sheet's own.
fn say_other_rule(refusal: u8) {
    match refusal {
        12 => say(b"a protected place is above the task count"),
        14 => say(
            b"a log has two bytes for each tick and a record three, and the last tick is cut",
        ),
        15 => say(b"a tick has a release bit above the task count, or one of its seven other bits"),
        16 => say(b"a release comes sooner than the period T after that task's last"),
        17 => say(b"a fault comes sooner than the fault interval E after the last"),
        19 => say(b"the sheet is for a shared processor, and this is answered of a whole one only"),
        23 => say(b"the number of cores is not 1 to 4"),
        24 => say(b"the sheet in use and the candidate have different task counts"),
        _ => say(b"a rule that this program has no words for"),
    }
}

// The place, from 1, of the record that breaks the rule that a table is refused for.
fn number(table: Table) -> u64
    ensures { result ≡ broken_place table + 1 }
{
    match sheet::judge_table_at(table) {
        Ok(()) => 1,
        Err(broken) => broken.place as u64 + 1,
    }
}

// Prints the sentence of a rule.
pub fn print(refusal: u8) {
    say(b"desk: ");
    say_rule(refusal);
    say(b"\n");
}

// Prints the sentence of the rule that a table breaks, after what it is called, with the record's place where the rule is a record's.
pub fn print_of(called: &[u8], table: Table, refusal: u8) {
    say(b"desk: ");
    say(called);
    if (6 <= refusal) & (refusal <= 10) {
        say(b"record ");
        io::print_decimal(STDERR_FILENO, number(table));
        say(b": ");
    }
    say_rule(refusal);
    say(b"\n");
}

// Whether a byte is one that texts have.
fn is_of_text(byte: u8) -> bool {
    !byte.is_ascii_control() || matches!(byte, b'\t' | b'\n' | b'\r')
}

// Whether bytes look like lines of text.
fn looks_like_text(bytes: &[u8]) -> bool {
    bytes.iter().all(|byte| is_of_text(*byte)) && bytes.contains(&b'\n')
}

// Prints how a text is judged, where refused bytes look like one.
pub fn print_of_text(bytes: &[u8]) {
    if looks_like_text(bytes) {
        say(
            b"desk: these bytes look like text, which --text or a name that ends in .txt, .csv or .tsv tells apart from a sheet's\n",
        );
    }
}
