// Timing sheets in both editions: records and tables, the rules they are judged by, the readers, into a table and into columns by rank, the writer, and one record's own bytes.
// Every call answers any bytes, numbers and tables; where a rule is broken, with the refusal of the first.
#![tactic(auto)]

ghost use Rattle.std.specs.Prelude.{◌≡◌};
ghost use Rattle.places.specs.Answered.{answered};
ghost use Rattle.sheet.specs.Layout.{count_of, no_record, no_table, is_whole};
ghost use Rattle.sheet.specs.Rules.{figures_refusal, sheet_refusal, table_refusal, whole_refusal};
ghost use Rattle.sheet.specs.Answers.{size_answer, judged_answer, read_answer, unjudged_answer, whole_answer, ranked_answer, columns_left, faults_left, ranks_left, write_answer, write_leaves, rewrite_answer, rewrite_leaves, place_refusal, start_answer, broken_at, figures_told, Part, Excerpted};

use places::refusal::Refusal;

mod columns;
mod layout;
mod rules;

// One task's record.
#[derive(Clone, Copy)]
pub struct Record {
    pub cost: u16,
    pub backup: u16,
    pub deadline: u16,
    pub period: u16,
    pub priority: u8,
    pub fault_priority: u8,
}

// A count, the fault interval, the round and our share of it, and room for eight records; those past the count are ignored, and zero when read.
#[derive(Clone, Copy)]
pub struct Table {
    pub count: u8,
    pub interval: u16,
    pub round: u16,
    pub share: u16,
    pub records: [Record; 8],
}

// What `judge_table_at` refuses a table for: the first rule that it breaks, and beside rules 6 to 10 the place of the record that breaks it, else 0.
#[derive(Clone, Copy)]
pub struct Broken {
    pub refusal: Refusal,
    pub place: usize,
}

impl From<Broken> for Refusal {
    ghost from_gives = { λ broken refusal. refusal ≡ broken.refusal };

    fn from(broken: Broken) -> Refusal {
        broken.refusal
    }
}

// What `read_ranked` answers of a good sheet: the count, the fault interval, the round and our share of it.
#[derive(Clone, Copy)]
pub struct Ranked {
    pub count: u8,
    pub interval: u16,
    pub round: u16,
    pub share: u16,
}

// A record of zeros.
pub fn no_record() -> Record
    ensures { result ≡ no_record }
{
    Record {
        cost: 0,
        backup: 0,
        deadline: 0,
        period: 0,
        priority: 0,
        fault_priority: 0,
    }
}

// A table of zeros.
pub fn no_table() -> Table
    ensures { result ≡ no_table }
{
    Table {
        count: 0,
        interval: 0,
        round: 0,
        share: 0,
        records: [no_record(); 8],
    }
}

// How long a sheet is by its header, whatever bytes are there after it: the refusal of rules 1 to 3, or the bytes of its edition and count.
pub fn said_size(sheet: &[u8]) -> Result<usize, Refusal>
    ensures { result ≡ answered (size_answer sheet.now).refusal (size_answer sheet.now).size }
{
    rules::judge_size(sheet)?;
    let edition = layout::edition(sheet);
    Ok(layout::size(edition, layout::count(sheet)))
}

// The first rule that the sheet breaks.
pub fn judge(sheet: &[u8]) -> Result<(), Refusal>
    ensures { result ≡ answered (sheet_refusal sheet.now) tt }
{
    good_count(sheet)?;
    Ok(())
}

// The same, and the count of a sheet that breaks none.
fn good_count(sheet: &[u8]) -> Result<u8, Refusal>
    ensures { result ≡ answered (sheet_refusal sheet.now) (count_of sheet.now) }
{
    let count = rules::judge_header(sheet)?;
    rules::judge_parts(sheet, count)?;
    Ok(count)
}

// Rules 2, 5 and 18 on a table's figures.
fn judge_figures(table: Table) -> Result<(), Refusal>
    ensures { result ≡ answered (figures_refusal table) tt }
{
    let edition = layout::edition_for(table.round, table.share);
    if rules::outside(table.count as u16, 8) {
        return Err(Refusal::BadCount);
    }
    if table.interval == 0 {
        return Err(Refusal::NoInterval);
    }
    if rules::wrong_share(edition, table.round, table.share) {
        return Err(Refusal::BadShare);
    }
    Ok(())
}

// The first rule that a table by value breaks, of 2, 5, 18 and 6 to 10, and the place of the record that breaks it.
pub fn judge_table_at(table: Table) -> Result<(), Broken>
    ensures { result ≡ broken_at (judged_answer table) }
{
    if let Err(refusal) = judge_figures(table) {
        return Err(Broken { refusal, place: 0 });
    }
    rules::judge_records(table.records, table.count)
}

// The rule alone.
pub fn judge_table(table: Table) -> Result<(), Refusal>
    ensures { result ≡ answered (table_refusal table) tt }
{
    Ok(judge_table_at(table)?)
}

// Whether a round and a share are those of the whole processor.
pub fn is_whole(round: u16, share: u16) -> bool
    ensures { result ≡ is_whole round share }
{
    (round == 1) & (share == 1)
}

// A table's refusal where a whole processor is asked for: its own, then 19 for a shared one.
pub fn judge_whole(table: Table) -> Result<(), Refusal>
    ensures { result ≡ answered (whole_refusal table) tt }
{
    judge_table_at(table)?;
    rules::judge_shared(table)
}

// The table that a good sheet holds.
pub fn read(sheet: &[u8]) -> Result<Table, Refusal>
    ensures { result ≡ answered (read_answer sheet.now).refusal (read_answer sheet.now).table }
{
    let table = read_unjudged(sheet)?;
    rules::judge_records(table.records, table.count)?;
    Ok(table)
}

// The same of a sheet whose header is good, with its records as they stand, good or not.
pub fn read_unjudged(sheet: &[u8]) -> Result<Table, Refusal>
    ensures { result ≡ answered (unjudged_answer sheet.now).refusal (unjudged_answer sheet.now).table }
{
    rules::judge_header(sheet)?;
    Ok(layout::table_of(sheet))
}

// The same as `read` where a whole processor is asked for: the sheet's own refusal, then 19 for a shared one.
pub fn read_whole(sheet: &[u8]) -> Result<Table, Refusal>
    ensures { result ≡ answered (whole_answer sheet.now).refusal (whole_answer sheet.now).table }
{
    let table = read(sheet)?;
    rules::judge_shared(table)?;
    Ok(table)
}

// The records of a good sheet as columns by rank, the count less the priority: costs from 0 on, periods from 8, backups from 16, deadlines from 24; beside them the fault priorities, and each record's rank at its place; past the count all stays as it was.
pub fn read_ranked(
    sheet: &[u8],
    columns: &mut [u16; 32],
    faults: &mut [u8; 8],
    ranks: &mut [u8; 8],
) -> Result<Ranked, Refusal>
    ensures answer { result ≡ answered (ranked_answer sheet.now).refusal (figures_told (ranked_answer sheet.now)) }
    ensures fields { columns.new ≡ columns_left sheet.now columns.old }
    ensures faults { faults.new ≡ faults_left sheet.now faults.old }
    ensures ranks { ranks.new ≡ ranks_left sheet.now ranks.old }
{
    let count = good_count(sheet)?;
    columns::put_ranked(sheet, count, columns, faults, ranks);
    Ok(Ranked {
        count,
        interval: layout::interval(sheet),
        round: layout::round(sheet),
        share: layout::share(sheet),
    })
}

// Writes a good table's sheet at the start of the output.
pub fn write(table: Table, out: &mut [u8]) -> Result<usize, Refusal>
    ensures answer { result ≡ answered (write_answer table out.old).refusal (write_answer table out.old).written }
    ensures leaves { out.new ≡ write_leaves table out.old }
{
    judge_table(table)?;
    let edition = layout::edition_for(table.round, table.share);
    let size = layout::size(edition, table.count);
    if out.len() < size {
        return Err(Refusal::ShortOutput);
    }
    layout::put_sheet(out, table);
    Ok(size)
}

// Reads a sheet and writes its table at the start of the output: the same bytes.
pub fn rewrite(sheet: &[u8], out: &mut [u8]) -> Result<usize, Refusal>
    ensures answer { result ≡ answered (rewrite_answer sheet.now out.old).refusal (rewrite_answer sheet.now out.old).written }
    ensures leaves { out.new ≡ rewrite_leaves sheet.now out.old }
{
    let table = read(sheet)?;
    if out.len() < sheet.len() {
        return Err(Refusal::ShortOutput);
    }
    layout::put_sheet(out, table);
    Ok(sheet.len())
}

// The refusal of asking a sheet for the record at a place: the sheet's own, then 12.
pub fn judge_place(sheet: &[u8], place: usize) -> Result<(), Refusal>
    ensures { result ≡ answered (place_refusal sheet.now place) tt }
{
    let records = good_count(sheet)?;
    if place < records as usize {
        Ok(())
    } else {
        Err(Refusal::BadPlace)
    }
}

// Where the nine bytes of the record at a place start: the refusal of `judge_place`, or the first byte's place in the sheet.
pub fn record_start(sheet: &[u8], place: usize) -> Result<usize, Refusal>
    ensures { result ≡ answered (start_answer sheet.now place).refusal (start_answer sheet.now place).start }
{
    judge_place(sheet, place)?;
    Ok(layout::start(sheet) + 9 * place)
}

// The nine bytes of the record at a place, as a part of the lent sheet; the refusal of `judge_place`.
pub fn record_of(sheet: &[u8], place: usize) -> Result<&[u8], Refusal>
    ensures { Excerpted sheet.entry place result }
{
    let start = record_start(sheet, place)?;
    let end = start + 9;
    Ok(&sheet[start..end])
}

// The same; where refused, the empty part at the sheet's start.
pub fn record_part(sheet: &[u8], place: usize) -> &[u8]
    ensures { Part sheet.entry place result }
{
    match record_of(sheet, place) {
        Ok(part) => part,
        Err(_) => &sheet[..0],
    }
}
