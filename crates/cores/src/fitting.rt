// First fit: records in order, each on the lowest-numbered core where that core's tasks still pass.
ghost use Rattle.std.specs.Prelude.{◌≡◌, ◌≤◌, ◌<◌, get_or, IfNone, IfSome, Ok};
ghost use Rattle.sheet.specs.Rules.{table_refusal};
ghost use Rattle.analysis.specs.Common.Entries.{own_tasks};
ghost use Rattle.cores.specs.Told.{placing_told};
ghost use Rattle.cores.specs.FirstFit.{still_pass, lowest_core};
ghost use Rattle.cores.specs.Answers.{placing_of};

use crate::{Placing, tables};
use sheet::Table;

// Whether the core's tasks still pass with the record at the place.
fn still_pass(table: Table, cores: [u8; 8], place: usize, core: u8) -> bool
    requires good { table_refusal table ≡ 0 }
    requires there { place < table.count }
    ensures { result ≡ still_pass (own_tasks table) (λ k. get_or cores k 0) place core }
{
    let answer = analysis::assess(tables::table_with(table, cores, place, core));
    answer.is_ok_and(|assessment| assessment.passes)
}

// The lowest-numbered core where the record at the place fits, where there is one.
fn lowest(table: Table, number: u8, cores: [u8; 8], place: usize) -> Option<u8>
    requires good { table_refusal table ≡ 0 }
    requires there { place < table.count }
    requires few { number ≤ 4 }
    ensures none { IfNone result (lowest_core (own_tasks table) number (λ k. get_or cores k 0) place ≡ 0) }
    ensures some { IfSome result (λ core. (1 ≤ core) × (core ≡ lowest_core (own_tasks table) number (λ k. get_or cores k 0) place)) }
{
    for core in 1..number + 1 {
        if still_pass(table, cores, place, core) {
            return Some(core);
        }
    }
    None
}

// Each record of a good table on its core, up to the first that fits none.
pub fn first_fit(table: Table, number: u8) -> Placing
    requires good { table_refusal table ≡ 0 }
    requires few { number ≤ 4 }
    ensures { Ok result ≡ placing_told (placing_of 0 (own_tasks table) number) }
{
    let count = table.count;
    let mut cores = [0u8; 8];
    for place in 0..count {
        match lowest(table, number, cores, place as usize) {
            Some(core) => cores[place as usize] = core,
            None => return Placing::FitsNone(place + 1),
        }
    }
    Placing::Everyone(cores)
}
