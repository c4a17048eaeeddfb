// The first new row, by the frame 33 of the table's sheet.
ghost use Rattle.std.specs.Prelude.{◌≡◌, [], ◌∷◌};
ghost use Rattle.frames.specs.Sheet.{frames_in};
ghost use Rattle.indexing.specs.Keys.{find};
ghost use Rattle.indexing.specs.Index.{Indexed};
ghost use Rattle.running.specs.Tables.{row_from};

use hexadecimal::short_at;
use indexing::index::{find_by, is_absent};

// The row that a frame 33 gives; the number n of rows where there is no frame.
fn row_from(frame: &[u8], n: usize) -> usize
    ensures { result ≡ row_from frame.now n }
{
    if frame.is_empty() {
        return n;
    }
    usize::from(short_at(frame, 1))
}

// The first new row of n, by the index of the table's sheet.
pub fn new_from(sheet: &[u8], index: &[u16], n: usize) -> usize
    requires { Indexed sheet.now index.now }
    ensures { result ≡ row_from (find (0x33 ∷ []) (frames_in sheet.now)) n }
{
    let key = [0x33u8];
    if is_absent(index, &key) {
        return n;
    }
    row_from(find_by(sheet, index, &key), n)
}
