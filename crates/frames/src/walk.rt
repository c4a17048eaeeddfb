// The frames of a sheet in turn.
ghost use Rattle.std.specs.Prelude.{◌≡◌};
ghost use Rattle.std.specs.Iterator.{YieldsFirstRef, item_count};
ghost use Rattle.frames.specs.Sheet.{frames_in};

use crate::frame::frame_at;

// Those that are left: the bytes of the sheet behind the frames that were taken.
#[derive(Clone, Copy)]
pub struct Frames<'a> {
    pub rest: &'a [u8],
}

impl<'a> Frames<'a> {
    // All of a sheet's.
    pub fn of(sheet: &'a [u8]) -> Frames<'a>
        ensures { result.rest.now ≡ sheet.now }
    {
        Frames { rest: sheet }
    }
}

impl<'a> Iterator for Frames<'a> {
    type Item = &'a [u8];

    ghost next_gives = { YieldsFirstRef (λ s. frames_in s.rest.now) };

    ghost remaining = { item_count (λ s. frames_in s.rest.now) };

    fn next(&mut self) -> Option<&'a [u8]> {
        if self.rest.is_empty() {
            return None;
        }
        let frame = frame_at(self.rest, 0);
        self.rest = &self.rest[frame.len()..];
        Some(frame)
    }
}
