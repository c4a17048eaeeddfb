// Eager passes over the atoms of a sheet, each found by the place of its frame.
ghost use Rattle.std.specs.Prelude.{◌≡◌, false, ◌+◌, ◌<◌, length, get_or};
ghost use Rattle.lowering.specs.Sheet.{frame_at};
ghost use Rattle.lowering.specs.Bound.{has, bound_most};
ghost use Rattle.lowering.specs.AtomLines.{AtomLine};
ghost use Rattle.passes.specs.Eager.{Tries, Lined, Located, Ready, Passed, LoweredEager};

use lowering::atom::{is_free, lower_bound};
use lowering::below::{is_set, set_bound};

// Takes atom i, by its frame, where it is not lowered yet and an eager pass lowers it; c atoms were taken before. How many now are.
fn try_at(
    frame: &[u8],
    i: u8,
    used: &mut [bool],
    bound: &mut [bool],
    order: &mut [u8],
    c: usize,
) -> usize
    requires atom_line { AtomLine frame.now }
    requires bound_len { length bound.old ≡ bound_most }
    requires i_in_bounds { i < length used.old }
    requires c_in_bounds { has used.old i ≡ false → c < length order.old }
    ensures { Tries frame.now i used.old bound.old order.old c used.new bound.new order.new result }
{
    if is_set(used, i) || !is_free(frame, used, bound) || !lower_bound(frame, bound) {
        return c;
    }
    set_bound(used, i);
    order[c] = i;
    c + 1
}

// The frame of the k-th atom.
pub fn atom_line<'a, 'b>(sheet: &'a [u8], from: &'b [u16], k: usize) -> &'a [u8]
    requires bound_most_in_bounds { k + bound_most < length from.now }
    requires lined { Lined sheet.now from.now k }
    ensures { result.now ≡ frame_at sheet.now (get_or from.now k 0) }
{
    let at = usize::from(from[k]);
    let end = usize::from(from[k + 64]);
    &sheet[at..end]
}

// One pass over the n atoms, from atom 0 on.
pub fn eager_pass(
    sheet: &[u8],
    from: &[u16],
    n: usize,
    used: &mut [bool],
    bound: &mut [bool],
    order: &mut [u8],
    count: usize,
) -> usize
    requires located { Located sheet.now from.now n }
    requires ready { Ready sheet.now used.old bound.old order.old count }
    ensures { Passed sheet.now used.old bound.old order.old count used.new bound.new order.new result }
{
    let mut c = count;
    for i in 0..n {
        let frame = atom_line(sheet, from, i);
        c = try_at(frame, i as u8, used, bound, order, c);
    }
    c
}

// Passes until one lowers nothing.
pub fn lower_eager(
    sheet: &[u8],
    from: &[u16],
    n: usize,
    used: &mut [bool],
    bound: &mut [bool],
    order: &mut [u8],
    count: usize,
) -> usize
    requires located { Located sheet.now from.now n }
    requires ready { Ready sheet.now used.old bound.old order.old count }
    ensures { LoweredEager sheet.now used.old bound.old order.old count used.new bound.new order.new result }
{
    let mut c = count;
    let mut more = true;
    while more {
        let d = eager_pass(sheet, from, n, used, bound, order, c);
        more = d != c;
        c = d;
    }
    c
}
