// Which rows of a table are passed over.
ghost use Rattle.std.specs.Prelude.{◌≡◌, ◌<◌};
ghost use Rattle.reading.specs.Sheet.{frames_in};
ghost use Rattle.reading.specs.Index.{Indexed};
ghost use Rattle.standing.specs.Leaders.{standing_below};
ghost use Rattle.standing.specs.Stands.{RowsSheet};
ghost use Rattle.passed_rows.specs.Passed.{is_passed};

use reading::second::LONG_SHEET;
use standing::lay::{SEEN, lay_standing};

// How many rows of the numbers below n stand.
fn stood_below(sheet: &[u8], index: &[u16], n: usize) -> usize
    requires indexed { Indexed sheet.now index.now }
    requires rows_sheet { RowsSheet sheet.now }
    ensures { result ≡ standing_below n (frames_in sheet.now) }
{
    let mut out = [0u8; LONG_SHEET];
    let mut seen = [0u16; SEEN];
    let stood = lay_standing(sheet, index, n, &mut out, &mut seen);
    stood.old
}

// Whether row n of a table is passed over.
pub fn is_passed(sheet: &[u8], index: &[u16], n: usize) -> bool
    requires indexed { Indexed sheet.now index.now }
    requires rows_sheet { RowsSheet sheet.now }
    requires n_bound { n < 65536 }
    ensures { result ≡ is_passed n (frames_in sheet.now) }
{
    let before = stood_below(sheet, index, n);
    let with = stood_below(sheet, index, n + 1);
    with == before
}
