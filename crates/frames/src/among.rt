// Whether one of a sheet's frames is of some kinds.
ghost use Rattle.std.specs.Prelude.{◌≡◌};
ghost use Rattle.frames.specs.Among.{is_between, has_kinds};
ghost use Rattle.frames.specs.Sheet.{frames_in};

use crate::walk::Frames;
use kinds::below::byte_at;

fn is_between(low: u8, high: u8, kind: u8) -> bool
    ensures { result ≡ is_between low high kind }
{
    low <= kind && kind <= high
}

// Whether one of the frames is of the kinds from `low` to `high`.
pub fn has_kinds(sheet: &[u8], low: u8, high: u8) -> bool
    ensures { result ≡ has_kinds low high (frames_in sheet.now) }
{
    for frame in Frames::of(sheet) {
        if is_between(low, high, byte_at(frame, 0)) {
            return true;
        }
    }
    false
}
