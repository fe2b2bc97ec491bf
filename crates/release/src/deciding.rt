// The release rule over two good tables: the counts, the protected places, the candidate's verdict, and responses that grow.
ghost use Rattle.std.specs.Prelude.{◌≡◌, ◌<◌, ◌≤◌, ◌&&◌, get_or};
ghost use Rattle.places.specs.Places.{some_below};
ghost use Rattle.places.specs.Answered.{answered};
ghost use Rattle.sheet.specs.Rules.{table_refusal};
ghost use Rattle.analysis.specs.Common.Entries.{no_entry};
ghost use Rattle.release.specs.Rules.{is_protected, grows, some_outside};
ghost use Rattle.release.specs.Answers.{decided};

use analysis::{Entry, Outcome};
use places::refusal::Refusal;
use sheet::Table;

// Whether the place is protected: its bit, place 0 lowest.
fn is_protected(protected: u8, place: usize) -> bool
    requires { place < 8 }
    ensures { result ≡ is_protected protected place }
{
    (protected >> place) % 2 == 1
}

// Whether a protected place is outside the count.
fn some_outside(protected: u8, count: usize) -> bool
    ensures { result ≡ some_outside protected count }
{
    (0..8).any(|place| (count <= place) & is_protected(protected, place))
}

// Whether a response grows from one outcome to the other; late is longer than any time.
fn grows(before: Outcome, after: Outcome) -> bool
    ensures { result ≡ grows before after }
{
    match before {
        Outcome::OnTime(old) => match after {
            Outcome::OnTime(new) => old < new,
            Outcome::Late => true,
        },
        Outcome::Late => false,
    }
}

// Whether the response at a place grows from the table in use to the candidate's.
fn grows_at(old: [Entry; 8], new: [Entry; 8], place: usize) -> bool
    requires { place < 8 }
    ensures { result ≡ grows (get_or old place no_entry).outcome (get_or new place no_entry).outcome }
{
    grows(old[place].outcome, new[place].outcome)
}

// Whether some protected task's response grows.
fn some_grows(old: [Entry; 8], new: [Entry; 8], protected: u8, count: usize) -> bool
    requires { count ≤ 8 }
    ensures { result ≡ some_below (λ place. is_protected protected place && grows (get_or old place no_entry).outcome (get_or new place no_entry).outcome) count }
{
    (0..count).any(|place| is_protected(protected, place) & grows_at(old, new, place))
}

// What is decided between two good tables.
pub fn between(old: Table, new: Table, protected: u8) -> Result<bool, Refusal>
    requires good_old { table_refusal old ≡ 0 }
    requires good_new { table_refusal new ≡ 0 }
    ensures { result ≡ answered (decided old new protected).refusal (decided old new protected).loads }
{
    let count = old.count as usize;
    if old.count != new.count {
        return Err(Refusal::DifferentCounts);
    }
    if some_outside(protected, count) {
        return Err(Refusal::BadPlace);
    }
    let before = analysis::assess(old)?;
    let after = analysis::assess(new)?;
    Ok(after.passes & !some_grows(before.entries, after.entries, protected, count))
}
