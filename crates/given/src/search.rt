// A frame of the query, found by its key among all that is given.
ghost use Rattle.std.specs.Prelude.{◌≡◌};
ghost use Rattle.buckets.specs.Sheet.{frames_in};
ghost use Rattle.buckets.specs.Keys.{find as find_of};
ghost use Rattle.given.specs.Asks.{asks_table as asks_table_of};
ghost use Rattle.given.specs.Given.{QueryKey, query_part, Keyed, Given};

use buckets::below::find_where;
use buckets::index::ROWS_AT;

// Of an index the part for the query's frames.
fn query_part(index: &[u16]) -> &[u16]
    ensures { result.now ≡ query_part index.now }
{
    if index.len() <= ROWS_AT {
        return index;
    }
    &index[..ROWS_AT]
}

// The query's frame with that key.
pub fn find_in<'a, 'b, 'c>(sheet: &'a [u8], index: &'b [u16], key: &'c [u8]) -> &'a [u8]
    requires query_key { QueryKey key.now }
    requires given { Given sheet.now index.now }
    ensures { result.now ≡ find_of key.now (frames_in sheet.now) }
{
    find_where(sheet, query_part(index), key)
}

// Whether frame 24 asks for a table.
pub fn asks_table(sheet: &[u8], index: &[u16]) -> bool
    requires { Keyed sheet.now index.now }
    ensures { result ≡ asks_table_of (frames_in sheet.now) }
{
    let key = [0x24];
    1 <= find_where(sheet, query_part(index), &key).len()
}
