// A cell as a task's name.
ghost use Rattle.std.specs.Prelude.{◌≡◌};
ghost use Rattle.cells.specs.Names.{no_spelling, misspelt, spelled_with, spelled_quote, spelled_after, spelled_from, named_by};

use crate::{Name, Named, Spelling, kinds};

// No name, and why.
pub fn misspelt(refusal: u8) -> Spelling
    ensures { result ≡ misspelt refusal }
{
    Spelling {
        refusal,
        odd: false,
        name: crate::no_name(),
    }
}

// One byte more.
fn spelled_with(spelling: Spelling, odd: bool, byte: u8) -> Spelling
    ensures { result ≡ spelled_with spelling odd byte }
{
    let mut name = spelling.name;
    let length = name.length;
    if 32 <= length {
        return misspelt(41);
    }
    name.bytes[length as usize] = byte;
    name.length = length + 1;
    Spelling {
        refusal: 0,
        odd,
        name,
    }
}

// A double quote.
fn spelled_quote(quoted: bool, spelling: Spelling) -> Spelling
    ensures { result ≡ spelled_quote quoted spelling }
{
    if !quoted {
        return misspelt(42);
    }
    if !spelling.odd {
        return spelled_with(spelling, true, b'"');
    }
    Spelling {
        refusal: 0,
        odd: false,
        ..spelling
    }
}

// A byte of a task's name.
fn spelled_after(quoted: bool, spelling: Spelling, byte: u8) -> Spelling
    ensures { result ≡ spelled_after quoted spelling byte }
{
    if spelling.refusal != 0 {
        return spelling;
    }
    if byte == b'"' {
        return spelled_quote(quoted, spelling);
    }
    if kinds::is_control(byte) {
        return misspelt(30);
    }
    spelled_with(spelling, false, byte)
}

// The name that bytes spell.
pub fn spelled(quoted: bool, bytes: &[u8]) -> Spelling
    ensures { result ≡ spelled_from quoted no_spelling bytes.now }
{
    bytes.iter().fold(
        misspelt(0),
        |spelling, byte| spelled_after(quoted, spelling, *byte),
    )
}

// The name that was read, or why there is none.
impl From<Spelling> for Named {
    fn from(spelling: Spelling) -> Named
        ensures { result ≡ named_by spelling }
    {
        Named {
            refusal: spelling.refusal,
            name: spelling.name,
        }
    }
}
