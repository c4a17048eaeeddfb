// A row by its frame: its children, and whether it is one that is asked for.
ghost use Rattle.std.specs.Prelude.{◌≡◌, ◌<◌};
ghost use Rattle.records.specs.Atoms.{child_at, children};
ghost use Rattle.records.specs.Running.{among};
ghost use Rattle.records.specs.Rows.{row_of};
ghost use Rattle.row_frames.specs.Wanted.{count_of, has_at, wanted};

use records::below::{byte_at, short_at};

// What is asked of a row, by its path: an operator, a class at a place among the children, or a class anywhere among them.
#[derive(Clone, Copy)]
pub struct Want {
    pub path: u8,
    pub place: u8,
    pub class: u16,
}

pub const CHILD_PATH: u8 = 0;

pub const OP_PATH: u8 = 2;

// No class.
const UNSET: u16 = 0xffff;

// How many children a row has.
pub fn child_count(frame: &[u8]) -> usize
    ensures { (result ≡ count_of frame.now) × (result < 256) }
{
    if byte_at(frame, 0) != 0x30 {
        return 0;
    }
    usize::from(byte_at(frame, 4))
}

// The class at a place among the children: unset where there is none.
pub fn row_child(frame: &[u8], place: u8) -> u16
    ensures { result ≡ child_at (row_of frame.now) place }
{
    let p = usize::from(place);
    if child_count(frame) <= p {
        return UNSET;
    }
    short_at(frame, 5 + 2 * p)
}

// Whether a class is among the children.
pub fn row_has(frame: &[u8], class: u16) -> bool
    ensures { result ≡ among class (children (row_of frame.now)) }
{
    let n = child_count(frame);
    for j in 0..n {
        if short_at(frame, 5 + 2 * j) == class {
            return true;
        }
    }
    false
}

// Whether a row has the class at that place.
fn has_at(frame: &[u8], place: u8, class: u16) -> bool
    ensures { result ≡ has_at class place (row_of frame.now) }
{
    class != UNSET && row_child(frame, place) == class
}

// Whether a row is one that is asked for.
pub fn row_wanted(frame: &[u8], w: Want) -> bool
    ensures { result ≡ wanted w (row_of frame.now) }
{
    match w.path {
        OP_PATH => u16::from(byte_at(frame, 3)) == w.class,
        CHILD_PATH => has_at(frame, w.place, w.class),
        _ => row_has(frame, w.class),
    }
}
