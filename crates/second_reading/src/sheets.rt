// Where frame 24 may stand in a query: a table is handed in, and the query has no sample sheets.
ghost use Rattle.std.specs.Prelude.{◌≡◌};
ghost use Rattle.indexing.specs.Sheet.{frames_in};
ghost use Rattle.second_reading.specs.FromTable.{table_for};

use indexing::below::has_kinds;

// Whether there is a table to take samples from. The frames are looked at only where one is handed in.
pub fn table_for(handed: bool, sheet: &[u8]) -> bool
    ensures { result ≡ table_for handed (frames_in sheet.now) }
{
    handed && !has_kinds(sheet, 0x21, 0x23)
}
