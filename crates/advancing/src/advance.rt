// The scheduler's state, led on by an eager round and by the atom that was chosen.
ghost use Rattle.std.specs.Prelude.{◌≡◌, true, false, ◌<◌, length};
ghost use Rattle.binding.specs.Bound.{has, bound_most};
ghost use Rattle.binding.specs.Scheduling.{scans, atom_of};
ghost use Rattle.binding.specs.QueryAtoms.{atom_of_frame};
ghost use Rattle.lowering.specs.AtomLines.{AtomLine};
ghost use Rattle.passes.specs.Eager.{Located, sheet_atoms};
ghost use Rattle.advancing.specs.Advancing.{Prepared, Advances, Takes, TakesNext};

use binding::sets::set_bound;
use lowering::atom::lower_bound;
use passes::eager::{atom_line, lower_eager};
use recording::changed::changed;
use recording::record::{record_atom, record_numbers};

// The scheduler's state: the atoms lowered, the variables bound, the atoms that were lowered when emitters were last recorded, the
// variables' emitters; the atoms lowered in order, and how many they are.
#[derive(Clone, Copy)]
pub struct Scheduler {
    pub used: [bool; 64],
    pub bound: [bool; 64],
    pub before: [bool; 64],
    pub emitters: [u32; 64],
    pub order: [u8; 64],
    pub count: usize,
}

// An eager round, and the emitters of what it lowered, recorded by atom number.
pub fn advance(sheet: &[u8], from: &[u16], n: usize, mut d: Scheduler) -> Scheduler
    requires located { Located sheet.now from.now n }
    requires prepared { Prepared sheet.now d }
    ensures { Advances sheet.now d result }
{
    let mut fresh = [0u8; 64];
    d.count = lower_eager(
        sheet,
        from,
        n,
        &mut d.used,
        &mut d.bound,
        &mut d.order,
        d.count,
    );
    let m = changed(&d.before, &d.used, n, &mut fresh);
    record_numbers(&mut d.emitters, sheet, from, n, &fresh, m);
    d
}

// Atom number i, by its frame, is lowered; c atoms were before. How many now are.
fn take(
    frame: &[u8],
    i: u8,
    used: &mut [bool],
    bound: &mut [bool],
    order: &mut [u8],
    c: usize,
) -> usize
    requires atom_line { AtomLine frame.now }
    requires frame_value { scans (atom_of_frame frame.now) ≡ true }
    requires i_value { has used.old i ≡ false }
    requires bound_len { length bound.old ≡ bound_most }
    requires i_in_bounds { i < length used.old }
    requires c_in_bounds { c < length order.old }
    ensures { Takes frame.now i used.old bound.old order.old c used.new bound.new order.new result }
{
    let _ = lower_bound(frame, bound);
    set_bound(used, i);
    order[c] = i;
    c + 1
}

// The atom chosen, number i, is lowered, and its emitters recorded.
pub fn take_next(sheet: &[u8], from: &[u16], n: usize, i: u8, mut d: Scheduler) -> Scheduler
    requires located { Located sheet.now from.now n }
    requires i_lt_n { i < n }
    requires i_value { scans (atom_of (sheet_atoms sheet.now) i) ≡ true }
    requires i_value_2 { has d.used i ≡ false }
    requires prepared { Prepared sheet.now d }
    ensures { TakesNext sheet.now i d result }
{
    let frame = atom_line(sheet, from, usize::from(i));
    d.count = take(frame, i, &mut d.used, &mut d.bound, &mut d.order, d.count);
    record_atom(&mut d.emitters, frame, i);
    d.before = d.used;
    d
}
