// A query that asks for a table, and the table behind it.
ghost use Rattle.gathering.specs.Gathered.{Asks, BothLent, QueryLaid, Gathers};

use buckets::index::ROWS_AT;
use first_reading::first::{Refusal, sheet_size};
use frame_tests::tests::Text;
use reading::second::{LONG_SHEET, read_indexed, read_query};
use row_indexing::fill::index_table;
use sampled_frames::lay::lay_sampled;

// The frames of two texts.
pub const BOTH_SHEETS: usize = 2 * LONG_SHEET;

// Reads the table behind the first `size` bytes of the sheet, which are the query's, and indexes its rows that stand. How many bytes there then
// are, or the table's refusal.
fn add_table(
    text: &[u8],
    table: &[u8],
    sheet: &mut [u8],
    size: usize,
    index: &mut [u16],
    keys: &mut [u16],
) -> Result<usize, Refusal>
    requires { QueryLaid text.now table.now sheet.old size index.old keys.old }
    ensures { Gathers text.now table.now sheet.new index.new result }
{
    let lines = match read_indexed(Text::Table, table, &mut sheet[size..], keys) {
        Ok(lines) => lines,
        Err(fault) => return Err(fault.of(Text::Table)),
    };
    let last = size + sheet_size(table.len(), lines.count);
    let end = lay_sampled(sheet, size, last, keys);
    index_table(&sheet[..end], size, index);
    Ok(end)
}

// Reads a query that asks for a table, and the table behind it.
pub fn gather(
    text: &[u8],
    table: &[u8],
    sheet: &mut [u8],
    index: &mut [u16],
    keys: &mut [u16],
) -> Result<usize, Refusal>
    requires asks { Asks text.now }
    requires both_lent { BothLent table.now sheet.old index.old keys.old }
    ensures { Gathers text.now table.now sheet.new index.new result }
{
    let lines = match read_query(true, text, sheet, &mut index[..ROWS_AT]) {
        Ok(lines) => lines,
        Err(fault) => return Err(fault.of(Text::Query)),
    };
    let size = sheet_size(text.len(), lines.count);
    add_table(text, table, sheet, size, index, keys)
}
