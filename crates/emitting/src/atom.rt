// One atom by its kind: its steps as lines, and what it binds.
ghost use Rattle.std.specs.Prelude.{◌≡◌, ◌<◌, length, get_or};
ghost use Rattle.binding.specs.Bound.{bound_most};
ghost use Rattle.binding.specs.Lowering.{lower};
ghost use Rattle.binding.specs.QueryAtoms.{atom_of_frame};
ghost use Rattle.lowering.specs.AtomLines.{bound_behind};
ghost use Rattle.emitting.specs.Emitting.{Emits, Emittable};

use binding::sets::set_bound;
use extracting::children::read_children;
use extracting::elements::expand;
use hexadecimal::byte_at;
use joining::join::join;
use lowering::atom::lower_bound;
use output::parts::put_line;
use step_bytes::single::{literal_step, lone_step};

// 01 Plain: the Join, then a step for each child.
fn emit_plain(frame: &[u8], k: u8, bound: &mut [bool], out: &mut [u8], at: usize) -> usize
    requires emittable { Emittable frame.now }
    requires frame_value { get_or frame.now 0 0 ≡ 1 }
    requires bound_len { length bound.old ≡ bound_most }
    requires at_bound { at < 0x1000_0000 }
    ensures bound_after { bound.new ≡ bound_behind bound.old (lower bound.old k (atom_of_frame frame.now)) }
    ensures emits { Emits bound.old k (atom_of_frame frame.now) out.old at out.new result }
{
    let next = join(frame, k, bound, out, at);
    set_bound(bound, byte_at(frame, 1));
    read_children(frame, bound, out, next)
}

// 02 Lit, 03 LitBind: the Join, then the step that checks or sets the literal.
fn emit_literal(frame: &[u8], k: u8, bound: &[bool], out: &mut [u8], at: usize) -> usize
    requires emittable { Emittable frame.now }
    requires bound { 1 < get_or frame.now 0 0 }
    requires frame_bound { get_or frame.now 0 0 < 4 }
    requires at_bound { at < 0x1000_0000 }
    ensures { Emits bound.now k (atom_of_frame frame.now) out.old at out.new result }
{
    let next = join(frame, k, bound, out, at);
    let step = literal_step(frame);
    put_line(out, next, &step)
}

// 04 Eq, 05 EqGlobal, 06 Pred: one step, none where the atom waits.
fn emit_lone(frame: &[u8], k: u8, bound: &[bool], out: &mut [u8], at: usize) -> usize
    requires emittable { Emittable frame.now }
    requires bound { 3 < get_or frame.now 0 0 }
    requires frame_bound { get_or frame.now 0 0 < 7 }
    requires at_bound { at < 0x1000_0000 }
    ensures { Emits bound.now k (atom_of_frame frame.now) out.old at out.new result }
{
    match lone_step(frame, bound) {
        Some(step) => put_line(out, at, &step),
        None => at,
    }
}

// 07 to 0e: the Join, then the step with the elements.
fn emit_collection(frame: &[u8], k: u8, bound: &[bool], out: &mut [u8], at: usize) -> usize
    requires emittable { Emittable frame.now }
    requires bound { 6 < get_or frame.now 0 0 }
    requires at_bound { at < 0x1000_0000 }
    ensures { Emits bound.now k (atom_of_frame frame.now) out.old at out.new result }
{
    let next = join(frame, k, bound, out, at);
    expand(frame, out, next)
}

// The steps of any kind but 01 Plain.
fn emit_other(frame: &[u8], k: u8, bound: &[bool], out: &mut [u8], at: usize) -> usize
    requires emittable { Emittable frame.now }
    requires fact { get_or frame.now 0 0 ≡ 1 → ⊥ }
    requires at_bound { at < 0x1000_0000 }
    ensures { Emits bound.now k (atom_of_frame frame.now) out.old at out.new result }
{
    let kind = byte_at(frame, 0);
    if kind < 4 {
        emit_literal(frame, k, bound, out, at)
    } else if kind < 7 {
        emit_lone(frame, k, bound, out, at)
    } else {
        emit_collection(frame, k, bound, out, at)
    }
}

// The steps of atom k, by its frame; what it binds is set.
pub fn emit_atom(frame: &[u8], k: u8, bound: &mut [bool], out: &mut [u8], at: usize) -> usize
    requires emittable { Emittable frame.now }
    requires bound_len { length bound.old ≡ bound_most }
    requires at_bound { at < 0x1000_0000 }
    ensures bound_after { bound.new ≡ bound_behind bound.old (lower bound.old k (atom_of_frame frame.now)) }
    ensures emits { Emits bound.old k (atom_of_frame frame.now) out.old at out.new result }
{
    if byte_at(frame, 0) == 1 {
        return emit_plain(frame, k, bound, out, at);
    }
    let next = emit_other(frame, k, bound, out, at);
    lower_bound(frame, bound);
    next
}
