// The passing choices and their number, printed from the library's list.
use crate::output;
use report::Name;
use sheet::Table;
use std::io::Error;

// The bytes of the longest list: a sheet of eight tasks has 40,320 choices, each of four bytes.
pub const ROOM: usize = 161280;

// An entry of a list as a choice, two of whose priorities stand in each byte.
fn choice(entry: [u8; 4]) -> [u8; 8] {
    let [first, second, third, fourth] = entry;
    [
        first / 16,
        first % 16,
        second / 16,
        second % 16,
        third / 16,
        third % 16,
        fourth / 16,
        fourth % 16,
    ]
}

// Prints a line for each entry of a list of choices of so many tasks, and the last line.
pub fn print_list(rt: HostRuntime, count: u8, list: &[u8], entries: usize) -> Result<(), Error> {
    let stream = rt.stdout();
    let mut page = output::EMPTY;
    let (choices, _) = list.as_chunks::<4>();
    for entry in choices.iter().take(entries) {
        page.keep(&stream, report::choice_line(count, choice(*entry)))?;
    }
    page.finish(&stream, report::named_line(Name::End, entries as u64))
}

// Prints every passing choice of a good table.
pub fn print(rt: HostRuntime, table: Table) -> Result<(), Error> {
    let mut list = [0u8; ROOM];
    let entries = choices::list(table, &mut list).unwrap_or(0);
    print_list(rt, table.count, &list, entries)
}
