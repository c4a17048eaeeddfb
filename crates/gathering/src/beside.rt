// A query, and the table text that may be handed in beside it: none, or one that may be empty.
ghost use Rattle.std.specs.Prelude.{◌≡◌, ◌≤◌, length};
ghost use Rattle.buckets.specs.RowIndex.{rows_at};
ghost use Rattle.reading.specs.IndexedReading.{Lent};
ghost use Rattle.gathering.specs.Gathered.{ReadsBeside};
ghost use Rattle.gathering.specs.Handed.{handed, handed_if};

use first_reading::first::{Refusal, sheet_size};
use frame_tests::tests::Text;
use reading::second::read_query;

// The table, where one is handed in.
pub fn table_if<'a>(given: bool, table: &'a [u8]) -> Option<&'a [u8]>
    ensures { handed result ≡ handed_if given table.now }
{
    if given { Some(table) } else { None }
}

// Reads a query by a sheet for its frames and an index of them that are lent. How many bytes of the sheet its frames are.
pub fn read_beside(
    text: &[u8],
    table: Option<&[u8]>,
    sheet: &mut [u8],
    index: &mut [u16],
) -> Result<usize, Refusal>
    requires lent { Lent text.now sheet.old index.old }
    requires index_len_bound { length index.old ≤ rows_at }
    ensures { ReadsBeside text.now table.entry sheet.new index.new result }
{
    let lines = match read_query(table.is_some(), text, sheet, index) {
        Ok(lines) => lines,
        Err(fault) => return Err(fault.of(Text::Query)),
    };
    Ok(sheet_size(text.len(), lines.count))
}
