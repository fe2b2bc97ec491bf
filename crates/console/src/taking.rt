// A good sheet's table from the input that an argument names: how a command begins that asks about one sheet.
use crate::refusals;
use intake::sheets;
use sheet::Table;
use streams::endings::Ending;

// Reads the sheet that an argument names; where it is not good, tells why, and gives how the command ends.
pub fn table(rt: HostRuntime, place: usize, is_explained: bool) -> Result<Table, Ending> {
    let given = sheets::read(rt, place).ok_or(Ending::Trouble)?;
    sheets::reading(given).map_err(|refusal| refusals::print_of(
        rt,
        given,
        refusal.number(),
        is_explained,
    ))
}
