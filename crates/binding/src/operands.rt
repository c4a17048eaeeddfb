// The operands of an atom's frame: tag and index, at byte i of its frame.
ghost use Rattle.std.specs.Prelude.{◌≡◌, true, ◌+◌, ◌*◌, ◌<◌, length};
ghost use mathlib.Core.List.{flat_map};
ghost use Rattle.cost.specs.Atoms.{local_of};
ghost use Rattle.cost.specs.Bound.{has_all};
ghost use Rattle.cost.specs.Lowering.{pv_is_bound, pv_mark_bound, mark_all};
ghost use Rattle.cost.specs.Premises.{numbers_below};
ghost use Rattle.cost.specs.QueryAtoms.{operands_from, bytes_from};
ghost use Rattle.cost.specs.Lookups.{operand_at};
ghost use Rattle.binding.specs.ItemOperands.{item_operands};

use super::sets::{is_set, set_bound};
use cost::below::{fixed_length, item_width, items_of};
use hexadecimal::byte_at;

// Whether an operand is bound: a global always is.
pub fn pv_is_bound(frame: &[u8], i: usize, bound: &[bool]) -> bool
    requires { i < 65536 }
    ensures { result ≡ pv_is_bound bound.now (operand_at frame.now i) }
{
    byte_at(frame, i) != 0 || is_set(bound, byte_at(frame, i + 1))
}

pub fn pv_mark_bound(frame: &[u8], i: usize, bound: &mut [bool])
    requires i_bound { i < 65536 }
    requires i_value { numbers_below (length bound.old) (local_of (operand_at frame.now i)) ≡ true }
    ensures { bound.new ≡ pv_mark_bound bound.old (operand_at frame.now i) }
{
    if byte_at(frame, i) == 0 {
        set_bound(bound, byte_at(frame, i + 1));
    }
}

// Marks n operands, each w bytes behind the one before, from byte i on.
pub fn mark_operands(frame: &[u8], i: usize, w: usize, n: usize, bound: &mut [bool])
    requires i_bound { i < 256 }
    requires w_bound { w < 256 }
    requires n_bound { n < 256 }
    requires n_value { numbers_below (length bound.old) (flat_map local_of (operands_from frame.now i w n)) ≡ true }
    ensures { bound.new ≡ mark_all bound.old (operands_from frame.now i w n) }
{
    for k in 0..n {
        pv_mark_bound(frame, i + w * k, bound);
    }
}

// Marks the items of a frame, as the table of kinds has them.
pub fn mark_items(frame: &[u8], bound: &mut [bool])
    requires { numbers_below (length bound.old) (flat_map local_of (item_operands frame.now)) ≡ true }
    ensures { bound.new ≡ mark_all bound.old (item_operands frame.now) }
{
    let kind = byte_at(frame, 0);
    let i = fixed_length(kind);
    let w = item_width(kind);
    let n = items_of(frame);
    mark_operands(frame, i, w, n, bound);
}

// Whether the n numbers, each w bytes behind the one before, from byte i on, are all in a set.
pub fn all_set(frame: &[u8], i: usize, w: usize, n: usize, set: &[bool]) -> bool
    requires i_bound { i < 256 }
    requires w_bound { w < 256 }
    requires n_bound { n < 256 }
    ensures { result ≡ has_all set.now (bytes_from frame.now i w n) }
{
    for k in 0..n {
        if !is_set(set, byte_at(frame, i + w * k)) {
            return false;
        }
    }
    true
}
