// The classes of the globals, by the frames 32 of the table's sheet, and by their leaders.
ghost use Rattle.std.specs.Prelude.{◌≡◌, length};
ghost use Rattle.frames.specs.Sheet.{frames_in};
ghost use Rattle.indexing.specs.Index.{Indexed};
ghost use Rattle.running.specs.Tables.{class_from, global_in};
ghost use Rattle.table_tests.specs.Globals.{GlobalsRead};

use hexadecimal::short_at;
use indexing::index::{find_by, is_absent};
use leaders::leader::leader;

// No class has this number.
const UNSET: u16 = 0xffff;

// The class of a frame 32, by its leader; unset where there is no frame.
fn class_from(sheet: &[u8], index: &[u16], frame: &[u8]) -> u16
    requires { Indexed sheet.now index.now }
    ensures { result ≡ class_from (frames_in sheet.now) frame.now }
{
    if frame.is_empty() {
        return UNSET;
    }
    leader(sheet, index, short_at(frame, 2))
}

fn global_class(sheet: &[u8], index: &[u16], g: u8) -> u16
    requires { Indexed sheet.now index.now }
    ensures { result ≡ global_in (frames_in sheet.now) g }
{
    let key = [0x32, g];
    if is_absent(index, &key) {
        return UNSET;
    }
    class_from(sheet, index, find_by(sheet, index, &key))
}

// The class of each global, by the index of the table's sheet.
pub fn global_classes(sheet: &[u8], index: &[u16], globals: &mut [u16])
    requires indexed { Indexed sheet.now index.now }
    requires globals_len { length globals.old ≡ 16 }
    ensures { GlobalsRead sheet.now globals.new }
{
    for g in 0..16u8 {
        globals[usize::from(g)] = global_class(sheet, index, g);
    }
}
