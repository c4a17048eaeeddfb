// The steps that read a Plain's children.
ghost use Rattle.std.specs.Prelude.{◌≡◌, true, ◌+◌, ◌<◌, ◌≤◌, length, get_or};
ghost use mathlib.Core.List.{map, flat_map};
ghost use Rattle.output.specs.Atoms.{local_of};
ghost use Rattle.binding.specs.Lowering.{pv_is_bound, pv_mark_bound, mark_all, read_child, emit_read_children};
ghost use Rattle.binding.specs.Premises.{numbers_below};
ghost use Rattle.output.specs.Lookups.{operand_at};
ghost use Rattle.output.specs.StepFrames.{frame_of};
ghost use Rattle.binding.specs.ItemOperands.{item_operands};
ghost use Rattle.output.specs.Written.{PutsFrames};

use binding::operands::pv_mark_bound;
use frames::frame::items_of;
use hexadecimal::byte_at;
use kinds::table::{fixed_length, item_width};
use output::parts::put_line;
use step_bytes::operand::child_at;

// The step of the child at byte j; what it binds is set.
fn read_child(
    frame: &[u8],
    j: usize,
    position: u8,
    bound: &mut [bool],
    out: &mut [u8],
    at: usize,
) -> usize
    requires j_bound { j < 65536 }
    requires j_value { numbers_below (length bound.old) (local_of (operand_at frame.now j)) ≡ true }
    requires at_bound { at < 0x3000_0000 }
    ensures bound_after { bound.new ≡ pv_mark_bound bound.old (operand_at frame.now j) }
    ensures puts_frames { PutsFrames out.old at (map frame_of (read_child (get_or frame.now 1 0) position (pv_is_bound bound.old (operand_at frame.now j)) (operand_at frame.now j))) out.new result }
{
    let step = child_at(frame, j, position, bound);
    pv_mark_bound(frame, j, bound);
    put_line(out, at, &step)
}

// A step for each child; what a child binds counts for those behind it.
pub fn read_children(frame: &[u8], bound: &mut [bool], out: &mut [u8], from: usize) -> usize
    requires frame_value { numbers_below (length bound.old) (flat_map local_of (item_operands frame.now)) ≡ true }
    requires from_bound { from < 0x2000_0000 }
    ensures bound_after { bound.new ≡ mark_all bound.old (item_operands frame.now) }
    ensures upper_bound { result ≤ from + 4096 }
    ensures puts_frames { PutsFrames out.old from (map frame_of (emit_read_children (get_or frame.now 1 0) 0 bound.old (item_operands frame.now))) out.new result }
{
    let kind = byte_at(frame, 0);
    let i = fixed_length(kind);
    let w = item_width(kind);
    let n = items_of(frame);
    let mut at = from;
    for k in 0..n {
        at = read_child(frame, i + w * k, k as u8, bound, out, at);
    }
    at
}
