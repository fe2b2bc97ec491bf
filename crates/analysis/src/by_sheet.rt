// A sheet whose records are read straight into columns by rank, judged by a rule.
ghost use Rattle.std.specs.Prelude.{◌≡◌, []};
ghost use Rattle.places.specs.Answered.{answered};
ghost use Rattle.sheet.specs.Layout.{table_of};
ghost use Rattle.sheet.specs.Answers.{columns_left, faults_left, ranks_left};
ghost use Rattle.analysis.specs.BySheet.{shared_by, sheet_rule_refusal, sheet_place_refusal};
ghost use Rattle.analysis.specs.Common.ByRank.{frame_of, ranked, InOrder, ChosenIn};
ghost use Rattle.analysis.specs.Common.Lent.{chosen_in};

use crate::Rule;
use crate::common::by_rank::Frame;
use crate::common::tasks::{Chosen, Ordered};
use places::refusal::Refusal;

// What a round and a share are refused for by a rule.
fn judge_shared(round: u16, share: u16, rule: Rule) -> Result<(), Refusal>
    ensures { result ≡ answered (shared_by rule round share) tt }
{
    match rule {
        Rule::Published => Ok(()),
        Rule::Assured => if sheet::is_whole(round, share) {
            Ok(())
        } else {
            Err(Refusal::SharedProcessor)
        },
    }
}

// The frame of what is read, or the refusal under a rule: that of the sheet, then 19.
pub fn read(
    sheet: &[u8],
    rule: Rule,
    columns: &mut [u16; 32],
    faults: &mut [u8; 8],
    ranks: &mut [u8; 8],
) -> Result<Frame, Refusal>
    ensures answer { result ≡ answered (sheet_rule_refusal rule sheet.now) (frame_of (table_of sheet.now) (table_of sheet.now).interval) }
    ensures fields { columns.new ≡ columns_left sheet.now columns.old }
    ensures faults { faults.new ≡ faults_left sheet.now faults.old }
    ensures ranks { ranks.new ≡ ranks_left sheet.now ranks.old }
{
    let read = sheet::read_ranked(sheet, columns, faults, ranks)?;
    judge_shared(read.round, read.share, rule)?;
    Ok(Frame::from(read))
}

// The same where the record at a place is asked for: then 12.
pub fn read_at(
    sheet: &[u8],
    place: usize,
    rule: Rule,
    columns: &mut [u16; 32],
    faults: &mut [u8; 8],
    ranks: &mut [u8; 8],
) -> Result<Frame, Refusal>
    ensures answer { result ≡ answered (sheet_place_refusal rule sheet.now place) (frame_of (table_of sheet.now) (table_of sheet.now).interval) }
    ensures fields { columns.new ≡ columns_left sheet.now columns.old }
    ensures faults { faults.new ≡ faults_left sheet.now faults.old }
    ensures ranks { ranks.new ≡ ranks_left sheet.now ranks.old }
{
    let frame = read(sheet, rule, columns, faults, ranks)?;
    if place < frame.count as usize {
        Ok(frame)
    } else {
        Err(Refusal::BadPlace)
    }
}

// The tasks that were read into columns, and their fault priorities.
pub fn chosen<'a>(frame: Frame, columns: &'a [u16; 32], faults: &'a [u8; 8]) -> Chosen<'a>
    requires order { InOrder (ranked columns.now frame []) }
    requires chosen { ChosenIn (ranked columns.now frame faults.now) }
    ensures { chosen_in result ≡ ranked columns.now frame faults.now }
{
    let tasks = Ordered { columns, frame };
    Chosen { tasks, faults }
}
