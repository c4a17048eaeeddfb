// The one step of an Eq, an EqGlobal or a Pred, and the one behind the Join of a Lit or a LitBind.
ghost use Rattle.std.specs.Prelude.{map, ◌<◌, get_or};
ghost use Rattle.output.specs.Atoms.{Eq, EqGlobal};
ghost use Rattle.binding.specs.Lowering.{lower};
ghost use Rattle.binding.specs.QueryAtoms.{atom_of_frame};
ghost use Rattle.output.specs.StepFrames.{frame_of};
ghost use Rattle.step_bytes.specs.Begun.{Begins, MayBecome, steps_of, behind_of};

use binding::sets::is_set;
use hexadecimal::byte_at;

// Both bound, CheckEq; one bound, CopyBinding; none, it waits.
fn eq_step(a: u8, b: u8, bound: &[bool]) -> Option<[u8; 3]>
    ensures { MayBecome result (steps_of (lower bound.now 0 (Eq a b))) }
{
    match (is_set(bound, a), is_set(bound, b)) {
        (true, true) => Some([0x43, a, b]),
        (true, false) => Some([0x46, b, a]),
        (false, true) => Some([0x46, a, b]),
        (false, false) => None,
    }
}

// Bound, CheckEqGlobal; else BindGlobal.
fn eq_global_step(a: u8, g: u8, bound: &[bool]) -> [u8; 3]
    ensures { Begins result (map frame_of (steps_of (lower bound.now 0 (EqGlobal a g)))) }
{
    if is_set(bound, a) {
        [0x44, a, g]
    } else {
        [0x45, a, g]
    }
}

// The step of an atom of kind 04, 05 or 06; none where the atom waits.
pub fn lone_step(frame: &[u8], bound: &[bool]) -> Option<[u8; 3]>
    requires bound { 3 < get_or frame.now 0 0 }
    requires frame_bound { get_or frame.now 0 0 < 7 }
    ensures { MayBecome result (steps_of (lower bound.now 0 (atom_of_frame frame.now))) }
{
    let a = byte_at(frame, 1);
    let b = byte_at(frame, 2);
    match byte_at(frame, 0) {
        4 => eq_step(a, b, bound),
        5 => Some(eq_global_step(a, b, bound)),
        _ => Some([0x4c, a, 0]),
    }
}

// The step behind the Join of an atom of kind 02 or 03: CheckLit, ExtractLitVal.
pub fn literal_step(frame: &[u8]) -> [u8; 6]
    requires bound { 1 < get_or frame.now 0 0 }
    requires frame_bound { get_or frame.now 0 0 < 4 }
    ensures { Begins result (map frame_of (behind_of (atom_of_frame frame.now))) }
{
    let node = byte_at(frame, 1);
    let a = byte_at(frame, 4);
    let b = byte_at(frame, 5);
    let c = byte_at(frame, 6);
    if byte_at(frame, 0) == 2 {
        return [0x4b, node, a, b, c, byte_at(frame, 7)];
    }
    [0x4a, node, byte_at(frame, 3), 0, 0, 0]
}
