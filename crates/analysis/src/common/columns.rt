// The priorities and the backups of a table's records, side by side.
ghost use Rattle.std.specs.Prelude.{◌≡◌, ◌<◌, ◌+◌};
ghost use Rattle.analysis.specs.Common.Columns.{ColumnsOf};
ghost use Rattle.sheet.specs.Rules.{table_refusal};

use crate::Columns;
use sheet::Table;

// The priorities and the backups of the records of a good table, in record order.
pub fn columns_of(table: Table) -> Columns
    requires { table_refusal table ≡ 0 }
    ensures { ColumnsOf table result }
{
    let count = table.count as usize;
    let records = table.records;
    let mut priorities = [0u8; 8];
    let mut backups = [0u16; 8];
    for place in 0..count {
        priorities[place] = records[place].priority;
        backups[place] = records[place].backup;
    }
    Columns {
        priorities,
        backups,
    }
}
