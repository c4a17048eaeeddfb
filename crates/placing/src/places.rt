// Where the frames of a sheet's atoms begin and end.
ghost use Rattle.std.specs.Prelude.{◌≡◌, true, ◌+◌, ◌<◌, ◌≤◌, length, get_or};
ghost use Rattle.passes.specs.Faults.{is_atom};
ghost use Rattle.frames.specs.Sheet.{frames_in};
ghost use Rattle.passes.specs.Bound.{bound_most};
ghost use Rattle.passes.specs.QueryAtoms.{atom_frames};
ghost use Rattle.placing.specs.Places.{Places, Noted};

use frames::frame::frame_at;
use hexadecimal::byte_at;

// Notes where a frame begins and ends, if it is an atom's; n are noted before. How many now are.
fn note_place(frame: &[u8], at: usize, end: usize, from: &mut [u16], n: usize) -> usize
    requires bound_most_in_bounds { is_atom (get_or frame.now 0 0) ≡ true → n + bound_most < length from.old }
    requires at_bound { (at < 65536) × (end < 65536) }
    ensures { Noted frame.now at end from.old n from.new result }
{
    let kind = byte_at(frame, 0);
    if kind == 0 || 14 < kind {
        return n;
    }
    from[n] = at as u16;
    from[n + 64] = end as u16;
    n + 1
}

// The places of all atoms, which fit two bytes, and how many they are.
pub fn atom_places(sheet: &[u8], from: &mut [u16]) -> usize
    requires sheet_len_bound { length (atom_frames (frames_in sheet.now)) ≤ bound_most }
    requires from_len { length from.old ≡ bound_most + bound_most }
    requires sheet_len_bound_2 { length sheet.now < 65536 }
    ensures { Places sheet.now from.new result }
{
    let mut at: usize = 0;
    let mut n: usize = 0;
    // kept: a frame is entered by its place, which an iterator over frames does not give.
    while at < sheet.len() {
        let frame = frame_at(sheet, at);
        let e = at + frame.len();
        n = note_place(frame, at, e, from, n);
        at = e;
    }
    n
}
