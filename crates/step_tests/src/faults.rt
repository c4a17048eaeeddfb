// What is asked of a variable's row, and of a global.
ghost use Rattle.std.specs.Prelude.{◌≡◌};
ghost use Rattle.join_tests.specs.Refusing.{op_at};
ghost use Rattle.join_tests.specs.Arrays.{bound_in, picked_in, ops_in};
ghost use Rattle.step_tests.specs.Steps.{meets_bound, row_read, child_fault, literal_fault, global_fault};

use join_tests::arrays::{is_bound, is_given, mark_at, reach_fits, shape_at};

// Whether the row of a variable may be read: a Join picked it.
pub fn row_read(p: u8, marks: &[u16]) -> bool
    ensures { result ≡ row_read (bound_in marks.now) (picked_in marks.now) p }
{
    1 < mark_at(marks, p)
}

// Whether a variable is bound, or unbound, as is asked.
pub fn meets(v: u8, bound: bool, marks: &[u16]) -> bool
    ensures { result ≡ meets_bound (bound_in marks.now) v bound }
{
    is_bound(marks, v) == bound
}

// The operator of a variable's row, 0 where no Join picked it.
fn op_of(v: u8, marks: &[u16]) -> usize
    ensures { result ≡ op_at (ops_in marks.now) v }
{
    usize::from(mark_at(marks, v).saturating_sub(2))
}

// The fault of a child of a variable's row.
pub fn child_fault(p: u8, position: u8, marks: &[u16], shapes: &[usize]) -> u8
    ensures { result ≡ child_fault shapes.now (ops_in marks.now) p position }
{
    if reach_fits(shapes, op_of(p, marks), usize::from(position) + 3) {
        0
    } else {
        11
    }
}

// The fault of the literal of a variable's row: its operator has no row, or shape 1.
pub fn literal_fault(n: u8, marks: &[u16], shapes: &[usize]) -> u8
    ensures { result ≡ literal_fault shapes.now (ops_in marks.now) n }
{
    if shape_at(shapes, op_of(n, marks)) < 2 {
        0
    } else {
        11
    }
}

// The fault of a global.
pub fn global_fault(g: u8, globals: &[u16]) -> u8
    ensures { result ≡ global_fault globals.now g }
{
    if is_given(globals, g) { 0 } else { 5 }
}
