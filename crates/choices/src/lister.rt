// The whole list: whether it fits its room, which is found without walking past that room, and then its bytes.
ghost use Rattle.std.specs.Prelude.{◌≡◌, ◌+◌, ◌*◌, ◌≤◌, leb, length};
ghost use Rattle.std.proofs.lemmas.List.Edits.{sets};
ghost use Rattle.choices.specs.Answers.{start_walk, entry_bytes};
ghost use Rattle.choices.specs.Stepping.{factorial, IsSmall, within_of, Filled, Listed};

use crate::within::Within;
use places::refusal::Refusal;

// How many choices so many records have: no list is longer.
fn most(count: u8) -> usize
    requires { count ≤ 8 }
    ensures { result ≡ factorial count }
{
    let all = count as usize;
    let mut choices: usize = 1;
    for records in 0..all {
        choices = choices * (records + 1);
    }
    choices
}

// Whether there are no more choices within bounds than the room has entries.
fn fits(mut within: Within, room: usize) -> bool
    requires { within.choice ≡ start_walk.entries }
    ensures { result ≡ leb (length (within_of within.entry.rule within.entry.bounds.now)) room }
{
    most(within.bounds.count) <= room || within.nth(room).is_none()
}

// Puts one entry's four bytes, two records in each.
fn put_entry(out: &mut [u8], at: usize, choice: [u8; 8])
    requires room { at + 4 ≤ length out.old }
    requires narrow { IsSmall choice }
    ensures { out.new ≡ sets out.old at (entry_bytes choice) }
{
    out[at] = choice[0] * 16 + choice[1];
    out[at + 1] = choice[2] * 16 + choice[3];
    out[at + 2] = choice[4] * 16 + choice[5];
    out[at + 3] = choice[6] * 16 + choice[7];
}

// Puts every choice within bounds, and counts them.
fn fill(within: Within, out: &mut [u8]) -> usize
    requires start { within.choice ≡ start_walk.entries }
    requires room { 4 * length (within_of within.rule within.bounds.now) ≤ length out.old }
    ensures { Filled (within_of within.entry.rule within.entry.bounds.now) out.old result out.new }
{
    let mut entries: usize = 0;
    for choice in within {
        put_entry(out, 4 * entries, choice);
        entries += 1;
    }
    entries
}

// Puts every choice within bounds where there is room for all, and else none: how many are put, or 11 for too little room.
pub fn put_list(within: Within, out: &mut [u8]) -> Result<usize, Refusal>
    requires { within.choice ≡ start_walk.entries }
    ensures { Listed (within_of within.entry.rule within.entry.bounds.now) out.old result out.new }
{
    if fits(within, out.len() / 4) {
        Ok(fill(within, out))
    } else {
        Err(Refusal::ShortOutput)
    }
}
