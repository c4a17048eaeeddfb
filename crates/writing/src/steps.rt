// The steps of the atoms of a sheet, in an order: as lines, and how many they are.
ghost use Rattle.std.specs.Prelude.{◌≡◌, ◌+◌, ◌<◌, ◌≤◌, length, take};
ghost use Rattle.records.specs.Bound.{bound_most};
ghost use Rattle.records.specs.Scheduling.{atom_of};
ghost use Rattle.passes.specs.QueryAtoms.{atom_of_frame};
ghost use Rattle.passes.specs.AtomLines.{AtomLine};
ghost use Rattle.passes.specs.Eager.{sheet_atoms, Located};
ghost use Rattle.writing.specs.Steps.{step_count, count_along, Ordered, PutsSteps};

use emitting::atom::emit_atom;
use frames::frame::items_of;
use hexadecimal::byte_at;
use passes::eager::atom_line;

// The lines of the first `count` atoms of the order.
pub fn write_steps(
    sheet: &[u8],
    from: &[u16],
    n: usize,
    order: &[u8],
    count: usize,
    bound: &mut [bool],
    out: &mut [u8],
    at: usize,
) -> usize
    requires located { Located sheet.now from.now n }
    requires ordered { Ordered sheet.now from.now n order.now count }
    requires bound_len { length bound.old ≡ bound_most }
    requires at_bound { at < 4096 }
    ensures { PutsSteps sheet.now bound.old (take count order.now) out.old at out.new result }
{
    let mut next = at;
    for &k in &order[..count] {
        let frame = atom_line(sheet, from, usize::from(k));
        next = emit_atom(frame, k, bound, out, next);
    }
    next
}

// How many steps an atom becomes where it lowers: with a Join, one step more, of a Plain one for each child.
fn steps_of(frame: &[u8]) -> usize
    requires { AtomLine frame.now }
    ensures { (result ≡ step_count (atom_of_frame frame.now)) × (result ≤ 256) }
{
    match byte_at(frame, 0) {
        1 => items_of(frame) + 1,
        4..=6 => 1,
        _ => 2,
    }
}

// How many steps they are, if each atom lowers in its turn.
pub fn count_steps(sheet: &[u8], from: &[u16], n: usize, order: &[u8], count: usize) -> usize
    requires located { Located sheet.now from.now n }
    requires ordered { Ordered sheet.now from.now n order.now count }
    ensures { (result ≡ count_along (atom_of (sheet_atoms sheet.now)) (take count order.now)) × (result ≤ 0x4000) }
{
    let mut sum: usize = 0;
    for &k in &order[..count] {
        sum += steps_of(atom_line(sheet, from, usize::from(k)));
    }
    sum
}
