// The emitters that an atom gives, read off its frame.
ghost use Rattle.std.specs.Prelude.{◌≡◌, true, ◌+◌, ◌*◌, ◌<◌, length, get_or, take, ltb};
ghost use mathlib.Core.List.{map, flat_map};
ghost use Rattle.binding.specs.Atoms.{local_of};
ghost use Rattle.binding.specs.Bound.{bound_most};
ghost use Rattle.binding.specs.Premises.{numbers_below};
ghost use Rattle.binding.specs.QueryAtoms.{operands_from, atom_of_frame};
ghost use Rattle.binding.specs.Emitters.{decode, from, set_emitter, record_atom};
ghost use Rattle.passes.specs.AtomLines.{AtomLine};
ghost use Rattle.binding.specs.ItemOperands.{item_operands};
ghost use Rattle.passes.specs.Eager.{Located, sheet_atoms};
ghost use Rattle.recording.specs.Items.{item_emitter, set_items};
ghost use Rattle.recording.specs.Changed.{record_number, record_numbers};

use emitters::numbers::{copy_emitter, packed, set_emitter, set_operand};
use frames::frame::items_of;
use hexadecimal::byte_at;
use kinds::table::{fixed_length, item_width};
use passes::eager::atom_line;

// The number of the emitter of item p: an element, or the child at position p.
fn item_emitter(atom: u8, elements: bool, p: u8) -> u32
    ensures { decode result ≡ item_emitter atom elements p }
{
    if elements {
        return packed(atom, 2, 0);
    }
    packed(atom, 1, p)
}

// The n items of an atom, each w bytes behind the one before, from byte i on.
fn set_items(em: &mut [u32], frame: &[u8], i: usize, w: usize, n: usize, atom: u8, elements: bool)
    requires i_bound { i < 256 }
    requires w_bound { w < 256 }
    requires n_bound { n < 256 }
    requires n_value { numbers_below (length em.old) (flat_map local_of (operands_from frame.now i w n)) ≡ true }
    ensures { map decode em.new ≡ set_items (map decode em.old) atom elements 0 (operands_from frame.now i w n) }
{
    for k in 0..n {
        let e = item_emitter(atom, elements, k as u8);
        set_operand(em, frame, i + w * k, e);
    }
}

// The items of a frame, as the table of kinds has them.
fn record_items(em: &mut [u32], frame: &[u8], atom: u8)
    requires { numbers_below (length em.old) (flat_map local_of (item_operands frame.now)) ≡ true }
    ensures { map decode em.new ≡ set_items (map decode em.old) atom (ltb 6 (get_or frame.now 0 0)) 0 (item_operands frame.now) }
{
    let kind = byte_at(frame, 0);
    let i = fixed_length(kind);
    let w = item_width(kind);
    let n = items_of(frame);
    set_items(em, frame, i, w, n, atom, 6 < kind);
}

// The node a of atom number k, and its items.
fn record_scan(em: &mut [u32], frame: &[u8], a: u8, k: u8)
    requires a_in_bounds { a < length em.old }
    requires frame_value { numbers_below (length em.old) (flat_map local_of (item_operands frame.now)) ≡ true }
    ensures { map decode em.new ≡ set_items (set_emitter (map decode em.old) a (from k 0 0)) k (ltb 6 (get_or frame.now 0 0)) 0 (item_operands frame.now) }
{
    set_emitter(em, a, packed(k, 0, 0));
    record_items(em, frame, k);
}

// The emitters behind atom number k, by its frame.
pub fn record_atom(em: &mut [u32], frame: &[u8], k: u8)
    requires atom_line { AtomLine frame.now }
    requires em_len { length em.old ≡ bound_most }
    ensures { map decode em.new ≡ record_atom (map decode em.old) k (atom_of_frame frame.now) }
{
    let a = byte_at(frame, 1);
    match byte_at(frame, 0) {
        4 => copy_emitter(em, a, byte_at(frame, 2)),
        5 | 6 => {}
        _ => record_scan(em, frame, a, k),
    }
}

// Atom number k, where there is one.
fn record_number(em: &mut [u32], sheet: &[u8], from: &[u16], n: usize, k: u8)
    requires located { Located sheet.now from.now n }
    requires em_len { length em.old ≡ bound_most }
    ensures { map decode em.new ≡ record_number (sheet_atoms sheet.now) (map decode em.old) k }
{
    let i = usize::from(k);
    if i < n {
        record_atom(em, atom_line(sheet, from, i), k);
    }
}

// The atoms with the first m numbers of a list, in its order.
pub fn record_numbers(em: &mut [u32], sheet: &[u8], from: &[u16], n: usize, list: &[u8], m: usize)
    requires located { Located sheet.now from.now n }
    requires em_len { length em.old ≡ bound_most }
    ensures { map decode em.new ≡ record_numbers (sheet_atoms sheet.now) (take m list.now) (map decode em.old) }
{
    let end = m.min(list.len());
    for &k in &list[..end] {
        record_number(em, sheet, from, n, k);
    }
}
