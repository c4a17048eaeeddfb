// The lines of frames: of the bytes that are lent as many as the table of kinds has.
ghost use Rattle.std.specs.Prelude.{[], ◌∷◌, ◌<◌, ◌≤◌, length};
ghost use Rattle.kinds.specs.Kinds.{fixed_length};
ghost use Rattle.frames.specs.Frames.{kind_of, frame_length};
ghost use Rattle.frames.specs.Sheet.{frame_at};
ghost use Rattle.output.specs.Written.{fixed_in, PutsFrames};

use super::bytes::{put_end, put_first};
use frames::frame::frame_length;
use hexadecimal::byte_at;
use kinds::table::fixed_length;

// The line of a frame without items: as many bytes as its kind has.
pub fn put_line(out: &mut [u8], at: usize, bytes: &[u8]) -> usize
    requires bytes_in_bounds { fixed_length (kind_of bytes.now) ≤ length bytes.now }
    requires at_bound { at < 0x5000_0000 }
    ensures { PutsFrames out.old at (fixed_in bytes.now ∷ []) out.new result }
{
    let n = fixed_length(byte_at(bytes, 0));
    let i = put_first(out, at, bytes, n);
    put_end(out, i)
}

// The line of a frame with items: as many bytes as its kind and its n say.
pub fn put_frame(out: &mut [u8], at: usize, bytes: &[u8]) -> usize
    requires bytes_in_bounds { frame_length bytes.now ≤ length bytes.now }
    requires at_bound { at < 0x5000_0000 }
    ensures { PutsFrames out.old at (frame_at bytes.now 0 ∷ []) out.new result }
{
    let n = frame_length(bytes);
    let i = put_first(out, at, bytes, n);
    put_end(out, i)
}
