// "Frame 34 class(2) leader(2) says so."
ghost use Rattle.std.specs.Prelude.{◌≡◌};
ghost use Rattle.indexing.specs.Sheet.{frames_in};
ghost use Rattle.indexing.specs.Index.{Indexed};
ghost use Rattle.records.specs.Leaders.{leader_from, leader_in};

use hexadecimal::short_at;
use indexing::index::{find_by, is_absent};
use records::shorts::{high_of, low_of};

// The leader that a frame 34 gives; the class itself where there is no frame.
fn leader_from(frame: &[u8], class: u16) -> u16
    ensures { result ≡ leader_from frame.now class }
{
    if frame.is_empty() {
        class
    } else {
        short_at(frame, 3)
    }
}

// The leader of a class, by the index of the table's sheet.
pub fn leader(sheet: &[u8], index: &[u16], class: u16) -> u16
    requires { Indexed sheet.now index.now }
    ensures { result ≡ leader_in (frames_in sheet.now) class }
{
    let key = [0x34, high_of(class), low_of(class)];
    if is_absent(index, &key) {
        class
    } else {
        leader_from(find_by(sheet, index, &key), class)
    }
}
