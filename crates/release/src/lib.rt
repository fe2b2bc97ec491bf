// The release desk: which of two sheets a box loads, the one in use or a candidate.
// The candidate is loaded exactly if it passes and no protected task's response grows; whatever is refused leaves the box as it is.
#![tactic(auto)]

ghost use Rattle.std.specs.Prelude.{◌≡◌};
ghost use Rattle.places.specs.Answered.{answered};
ghost use Rattle.release.specs.Answers.{decision, Handed, Loaded};

use places::refusal::Refusal;

mod deciding;

// Whether the candidate is to be loaded in place of the sheet in use.
pub fn decide(in_use: &[u8], candidate: &[u8], protected: u8) -> Result<bool, Refusal>
    ensures { result ≡ answered (decision in_use.now candidate.now protected).refusal (decision in_use.now candidate.now protected).loads }
{
    let old = sheet::read(in_use)?;
    let new = sheet::read(candidate)?;
    deciding::between(old, new, protected)
}

// The sheet to load: the whole of one of the two lent sheets.
pub fn load<'a>(in_use: &'a [u8], candidate: &'a [u8], protected: u8) -> Result<&'a [u8], Refusal>
    ensures { Loaded in_use.entry candidate.entry protected result }
{
    let loads = decide(in_use, candidate, protected)?;
    if loads {
        return Ok(candidate);
    }
    Ok(in_use)
}

// The same; where refused, the empty part at the start of the sheet in use.
pub fn sheet_to_load<'a>(in_use: &'a [u8], candidate: &'a [u8], protected: u8) -> &'a [u8]
    ensures { Handed in_use.entry candidate.entry protected result }
{
    match load(in_use, candidate, protected) {
        Ok(part) => part,
        Err(_) => &in_use[..0],
    }
}
