// The Join of an atom: its lookups are chosen before its node is bound.
ghost use Rattle.std.specs.Prelude.{◌≡◌, ◌∷◌, ◌+◌, ◌<◌, length, get_or};
ghost use Rattle.kinds.specs.Kinds.{items_of};
ghost use Rattle.output.specs.Frames.{kind_of};
ghost use Rattle.output.specs.Atoms.{ByOp, Join};
ghost use Rattle.output.specs.Written.{PutsStep};
ghost use Rattle.join_lookups.specs.OperandLookups.{operand_lookups};
ghost use Rattle.joining.specs.Joins.{join_of};

use binding::sets::is_set;
use hexadecimal::byte_at;
use join_lookups::operands::{count_bound, put_lookups};
use kinds::table::{fixed_length, item_width};
use output::bytes::{put_end, put_first};
use output::parts::put_frame;
use step_bytes::joins::{class_join, op_join};

// By the operator, and by the operands that are bound: so many.
fn keyed_join(frame: &[u8], k: u8, count: u8, bound: &[bool], out: &mut [u8], at: usize) -> usize
    requires count_value { count ≡ length (operand_lookups bound.now frame.now) }
    requires count_bound { count < 255 }
    requires at_bound { at < 0x2000_0000 }
    ensures { PutsStep out.old at (Join (get_or frame.now 1 0) k (ByOp (get_or frame.now 2 0) ∷ operand_lookups bound.now frame.now)) out.new result }
{
    let head = op_join(frame, k, count + 1);
    let size = fixed_length(0x40) + item_width(0x40);
    let a = put_first(out, at, &head, size);
    let b = put_lookups(frame, bound, out, a);
    put_end(out, b)
}

// The node is not bound: by the operator, alone where no operand is bound.
fn free_join(frame: &[u8], k: u8, bound: &[bool], out: &mut [u8], at: usize) -> usize
    requires frame_bound { items_of (kind_of frame.now) frame.now < 255 }
    requires at_bound { at < 0x2000_0000 }
    ensures { PutsStep out.old at (Join (get_or frame.now 1 0) k (ByOp (get_or frame.now 2 0) ∷ operand_lookups bound.now frame.now)) out.new result }
{
    let count = count_bound(frame, bound);
    if count == 0 {
        let line = op_join(frame, k, 1);
        return put_frame(out, at, &line);
    }
    keyed_join(frame, k, count, bound, out, at)
}

// The Join of atom k, by its frame.
pub fn join(frame: &[u8], k: u8, bound: &[bool], out: &mut [u8], at: usize) -> usize
    requires frame_bound { items_of (kind_of frame.now) frame.now < 255 }
    requires at_bound { at < 0x2000_0000 }
    ensures { PutsStep out.old at (join_of bound.now k frame.now) out.new result }
{
    if is_set(bound, byte_at(frame, 1)) {
        let line = class_join(frame, k);
        return put_frame(out, at, &line);
    }
    free_join(frame, k, bound, out, at)
}
