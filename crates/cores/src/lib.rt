// Boxes with several cores: each record of a sheet is put on the lowest-numbered core where that core's tasks still pass.
// The call answers any bytes and any number; what is refused, with the refusal.
#![tactic(auto)]

ghost use Rattle.std.specs.Prelude.{◌≡◌};
ghost use Rattle.places.specs.Answered.{answered};
ghost use Rattle.sheet.specs.Layout.{table_of};
ghost use Rattle.cores.specs.Told.{placing_told};
ghost use Rattle.cores.specs.Answers.{number_refusal, box_refusal, placing_answer};

use places::refusal::Refusal;
use sheet::Table;

mod fitting;
mod tables;

// What becomes of a sheet that is not refused: a core for every record, from 1 in record order, zero past the count; or the first record, from 1, that fits none.
#[derive(Clone, Copy)]
pub enum Placing {
    Everyone([u8; 8]),
    FitsNone(u8),
}

// Whether a number of cores is one.
fn judge_number(number: u8) -> Result<(), Refusal>
    ensures { result ≡ answered (number_refusal number) tt }
{
    if number == 0 {
        return Err(Refusal::BadCores);
    }
    if 4 < number {
        return Err(Refusal::BadCores);
    }
    Ok(())
}

// The table of a sheet that may be put on so many cores: the sheet's refusal, then that of the number.
fn read(sheet: &[u8], number: u8) -> Result<Table, Refusal>
    ensures { result ≡ answered (box_refusal sheet.now number) (table_of sheet.now) }
{
    let table = sheet::read_whole(sheet)?;
    judge_number(number)?;
    Ok(table)
}

// Puts each record of a sheet on one of so many cores.
pub fn place(sheet: &[u8], number: u8) -> Result<Placing, Refusal>
    ensures { result ≡ placing_told (placing_answer sheet.now number) }
{
    let table = read(sheet, number)?;
    Ok(fitting::first_fit(table, number))
}
