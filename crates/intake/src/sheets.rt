// A sheet from an input. 80 bytes decide any input that is longer than a sheet can be, so the rest is read and dropped.
ghost use Rattle.std.specs.Prelude.{◌≡◌};
ghost use Rattle.places.specs.Answered.{answered};
ghost use Rattle.intake.specs.Inputs.{given_sheet, given_reading, given_table};

use places::refusal::Refusal;
use sheet::Table;
use std::io::Error;
use streams::input::Opened;
use streams::{input, parts};

// The first bytes of an input that was read to its end, and how many of them it has.
#[derive(Clone, Copy)]
pub struct Given {
    pub bytes: [u8; 80],
    pub length: usize,
}

impl Given {
    // The sheet of the input: as many of its first bytes as it has.
    #[tactic(auto, unfolding(crate::specs::Inputs::given_sheet))]
    pub fn sheet(&self) -> &[u8]
        ensures { result.now ≡ given_sheet self.now }
    {
        &self.bytes[..parts::part(self.length, &self.bytes)]
    }
}

// Reads an opened input to its end.
fn take(opened: &mut Opened) -> Result<Given, Error> {
    let mut bytes = [0u8; 80];
    let length = input::fill(opened, &mut bytes)?;
    if length == bytes.len() {
        input::read_to_its_end(opened)?;
    }
    Ok(Given { bytes, length })
}

// The sheet that an argument names, or none where it could not be read, which is told.
pub fn read(rt: HostRuntime, place: usize) -> Option<Given> {
    let mut buffer = io::buffer();
    let name = input::name(rt, place, &mut buffer);
    let mut opened = input::open(rt, name)?;
    let taken = take(&mut opened);
    input::close(opened);
    input::told(taken, name)
}

// The sheet's table, or its refusal.
#[tactic(auto, unfolding(crate::specs::Inputs::given_reading))]
pub fn reading(given: Given) -> Result<Table, Refusal>
    ensures { result ≡ answered (given_reading given).refusal (given_reading given).table }
{
    sheet::read(given.sheet())
}

// The sheet's table as it stands, whatever rules its records break; zeros where its header is refused.
pub fn unjudged(given: Given) -> Table
    ensures { result ≡ given_table given }
{
    match sheet::read_unjudged(given.sheet()) {
        Ok(table) => table,
        Err(_) => sheet::no_table(),
    }
}
