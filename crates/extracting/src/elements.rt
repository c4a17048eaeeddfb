// The step that takes a collection apart, with its elements as items.
ghost use Rattle.std.specs.Prelude.{map, ◌+◌, ◌<◌, ◌≤◌, get_or};
ghost use Rattle.kinds.specs.Kinds.{fixed_length, items_of};
ghost use Rattle.frames.specs.Frames.{kind_of};
ghost use Rattle.binding.specs.QueryAtoms.{atom_of_frame};
ghost use Rattle.output.specs.StepFrames.{frame_of};
ghost use Rattle.output.specs.Written.{PutsBytes, PutsFrames};
ghost use Rattle.step_bytes.specs.Begun.{behind_of};
ghost use Rattle.step_bytes.specs.Pieces.{items_bytes};

use frames::frame::items_of;
use hexadecimal::byte_at;
use kinds::table::{fixed_length, item_width};
use output::bytes::{put_end, put_first};
use step_bytes::collection::expand_part;
use step_bytes::operand::item_at;

// The items of a frame, each w bytes wide.
fn put_items(frame: &[u8], w: usize, out: &mut [u8], from: usize) -> usize
    requires w_bound { w ≤ 3 }
    requires from_bound { from < 0x2800_0000 }
    ensures upper_bound { result ≤ from + 2048 }
    ensures puts_bytes { PutsBytes out.old from (items_bytes w frame.now (fixed_length (kind_of frame.now)) (items_of (kind_of frame.now) frame.now)) out.new result }
{
    let n = items_of(frame);
    let i = fixed_length(byte_at(frame, 0));
    let mut at = from;
    for k in 0..n {
        let item = item_at(frame, i + w * k);
        at = put_first(out, at, &item, w);
    }
    at
}

// The step behind the Join of a collection: its fixed part, its items, the end of its line. Both are as long as the table of kinds has them.
pub fn expand(frame: &[u8], out: &mut [u8], at: usize) -> usize
    requires bound { 6 < get_or frame.now 0 0 }
    requires frame_bound { get_or frame.now 0 0 < 15 }
    requires at_bound { at < 0x2000_0000 }
    ensures upper_bound { result ≤ at + 4096 }
    ensures puts_frames { PutsFrames out.old at (map frame_of (behind_of (atom_of_frame frame.now))) out.new result }
{
    let part = expand_part(frame);
    let step = part[0];
    let n = fixed_length(step);
    let w = item_width(step);
    let a = put_first(out, at, &part, n);
    let b = put_items(frame, w, out, a);
    put_end(out, b)
}
