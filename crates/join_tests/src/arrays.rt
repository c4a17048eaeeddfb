// What the arrays say: a variable's mark, the shape of an operator, whether a global has a class.
ghost use Rattle.std.specs.Prelude.{◌≡◌, get_or};
ghost use Rattle.records.specs.Bound.{has};
ghost use Rattle.join_tests.specs.Arrays.{bound_in, given, reach_fits};

// 0 unbound, 1 bound, 2 and the operator where a Join picked its row.
pub fn mark_at(marks: &[u16], v: u8) -> u16
    ensures { result ≡ get_or marks.now v 0 }
{
    marks.get(usize::from(v)).copied().unwrap_or(0)
}

pub fn is_bound(marks: &[u16], v: u8) -> bool
    ensures { result ≡ has (bound_in marks.now) v }
{
    mark_at(marks, v) != 0
}

pub fn shape_at(shapes: &[usize], op: usize) -> usize
    ensures { result ≡ get_or shapes.now op 0 }
{
    shapes.get(op).copied().unwrap_or(0)
}

// Whether every row of an operator is of a shape from `reach` on.
pub fn reach_fits(shapes: &[usize], op: usize, reach: usize) -> bool
    ensures { result ≡ reach_fits shapes.now op reach }
{
    let shape = shape_at(shapes, op);
    shape == 0 || reach <= shape
}

// Whether a global has a class.
pub fn is_given(globals: &[u16], g: u8) -> bool
    ensures { result ≡ given globals.now g }
{
    globals.get(usize::from(g)).copied().unwrap_or(0xffff) != 0xffff
}
