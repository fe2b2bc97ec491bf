// Takes ten thousand random sheets of both editions through their text and back, as it is shown and with other separators and orders of
// columns, and counts those whose bytes are not the same again.
#![tactic(auto)]

mod drawing;
mod turned;

use sheet::Table;

// The descriptor of standard output.
const STDOUT_FILENO: i32 = 1;

// How many sheets are drawn.
const SHEETS: u32 = 10000;

// The table of a text's figures as they are.
fn table_of(page: &[u8]) -> Table {
    text::scaled(text::read(page).figures, 1).table
}

// Whether a table's sheet is the bytes that a text is read and written as.
fn is_read_as(table: Table, page: &[u8]) -> bool {
    let mut before = [0u8; 80];
    let mut after = [0u8; 80];
    let (Ok(written), Ok(again)) = (
        sheet::write(table, &mut before),
        sheet::write(table_of(page), &mut after),
    ) else {
        return false;
    };
    rows::first(&before, written) == rows::first(&after, again)
}

// Whether the sheet of a table is the same after it was shown, and its text read and written.
fn is_shown_back(table: Table) -> bool {
    let mut page = io::buffer();
    let shown = text::show(table, &mut page);
    is_read_as(table, rows::first(&page, shown.size))
}

// The same of its text with another separator and another order of columns.
fn is_turned_back(table: Table, number: u32) -> bool {
    let mut page = io::buffer();
    let size = turned::put(&mut page, table, number);
    is_read_as(table, rows::first(&page, size))
}

// Whether the sheet of a number differs.
fn differs(number: u32) -> bool {
    let table = drawing::table(number);
    !is_shown_back(table) || !is_turned_back(table, number)
}

fn main() {
    io::print_decimal(STDOUT_FILENO, SHEETS as u64);
    io::write_all(
        STDOUT_FILENO,
        b" sheets shown, and written as other tools do, read and written again, ",
    );
    let differing = (0..SHEETS).filter(|number| differs(*number)).count();
    io::print_decimal(STDOUT_FILENO, differing as u64);
    io::write_all(STDOUT_FILENO, b" differ\n");
}
