// A good sheet's table from the input that an argument names: how a command begins that asks about one sheet.
use crate::inputs;
use console::refusals;
use intake::sheets;
use lines::Task;
use sheet::Table;
use streams::words::Asked;

// A good sheet's table, and its tasks as its text has them.
#[derive(Clone, Copy)]
pub struct Taken {
    pub table: Table,
    pub tasks: [Task; 8],
}

// Reads the sheet that an argument names, or tells why it is not good.
pub fn table(rt: HostRuntime, asked: Asked, place: usize) -> Option<Taken> {
    let source = inputs::sheet_at(rt, asked, place)?;
    let tasks = source.tasks;
    match sheets::reading(source.given) {
        Ok(table) => Some(Taken { table, tasks }),
        Err(refusal) => {
            refusals::print_of(rt, source.given, refusal.number(), asked.is_explained);
            None
        }
    }
}
