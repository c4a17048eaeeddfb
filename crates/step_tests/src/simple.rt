// The tests of a step other than a Join: 10, 9, 11 and the missing global.
ghost use Rattle.std.specs.Prelude.{◌≡◌, get_or};
ghost use Rattle.running.specs.StepFrames.{step_of};
ghost use Rattle.join_tests.specs.Arrays.{bound_in, picked_in, ops_in};
ghost use Rattle.step_tests.specs.Steps.{simple, child_step_fault, child_global_fault, pair_fault, global_step_fault, literal_step_fault, simple_fault};

use super::faults::{child_fault, global_fault, literal_fault, meets, row_read};
use hexadecimal::byte_at;
use join_tests::arrays::is_bound;

// A step other than a Join, as far as the tests ask. The last field of some says whether the variable before it must be bound or unbound.
#[derive(Clone, Copy)]
pub enum Simple {
    // 41 and 42 with a local: parent, position, variable
    Child(u8, u8, u8, bool),
    // 42 with a global: parent, position, global
    ChildGlobal(u8, u8, u8),
    // 43 and 46: a variable that is bound, and another
    Pair(u8, u8, bool),
    // 44 and 45: global, variable
    Global(u8, u8, bool),
    // 4a and 4b: node
    Literal(u8),
    // 47, 48, 49 and 4c
    NotRun,
}

// A CheckChildEq, by its operand's tag.
fn child_step(frame: &[u8]) -> Simple
    requires { get_or frame.now 0 0 ≡ 0x42 }
    ensures { result ≡ simple (step_of frame.now) }
{
    let parent = byte_at(frame, 1);
    let position = byte_at(frame, 2);
    let index = byte_at(frame, 4);
    if byte_at(frame, 3) == 0 {
        Simple::Child(parent, position, index, true)
    } else {
        Simple::ChildGlobal(parent, position, index)
    }
}

// A step of two fields or three, by its kind.
pub fn simple_step(frame: &[u8]) -> Simple
    ensures { result ≡ simple (step_of frame.now) }
{
    let a = byte_at(frame, 1);
    let b = byte_at(frame, 2);
    match byte_at(frame, 0) {
        0x41 => Simple::Child(b, byte_at(frame, 3), a, false),
        0x42 => child_step(frame),
        0x43 => Simple::Pair(a, b, true),
        0x44 => Simple::Global(b, a, true),
        0x45 => Simple::Global(b, a, false),
        0x46 => Simple::Pair(b, a, false),
        0x4a => Simple::Literal(a),
        0x4b => Simple::Literal(a),
        _ => Simple::NotRun,
    }
}

// The fault of an ExtractChild, or a CheckChildEq with a local.
fn child_step_fault(p: u8, i: u8, v: u8, bound: bool, marks: &[u16], shapes: &[usize]) -> u8
    ensures { result ≡ child_step_fault shapes.now (bound_in marks.now) (picked_in marks.now) (ops_in marks.now) p i v bound }
{
    if row_read(p, marks) && meets(v, bound, marks) {
        child_fault(p, i, marks, shapes)
    } else {
        9
    }
}

// The fault of a CheckChildEq with a global.
fn child_global_fault(p: u8, i: u8, g: u8, marks: &[u16], shapes: &[usize], globals: &[u16]) -> u8
    ensures { result ≡ child_global_fault shapes.now globals.now (bound_in marks.now) (picked_in marks.now) (ops_in marks.now) p i g }
{
    if !row_read(p, marks) {
        return 9;
    }
    if child_fault(p, i, marks, shapes) != 0 {
        return 11;
    }
    global_fault(g, globals)
}

// The fault of a CheckEq or a CopyBinding.
fn pair_fault(a: u8, v: u8, bound: bool, marks: &[u16]) -> u8
    ensures { result ≡ pair_fault (bound_in marks.now) a v bound }
{
    if is_bound(marks, a) && meets(v, bound, marks) {
        0
    } else {
        9
    }
}

// The fault of a CheckEqGlobal or a BindGlobal.
fn global_step_fault(g: u8, v: u8, bound: bool, marks: &[u16], globals: &[u16]) -> u8
    ensures { result ≡ global_step_fault globals.now (bound_in marks.now) g v bound }
{
    if meets(v, bound, marks) {
        global_fault(g, globals)
    } else {
        9
    }
}

// The fault of an ExtractLitVal or a CheckLit.
fn literal_step_fault(n: u8, marks: &[u16], shapes: &[usize]) -> u8
    ensures { result ≡ literal_step_fault shapes.now (bound_in marks.now) (picked_in marks.now) (ops_in marks.now) n }
{
    if row_read(n, marks) {
        literal_fault(n, marks, shapes)
    } else {
        9
    }
}

// The fault of a step other than a Join.
pub fn simple_fault(s: Simple, marks: &[u16], shapes: &[usize], globals: &[u16]) -> u8
    ensures { result ≡ simple_fault shapes.now globals.now (bound_in marks.now) (picked_in marks.now) (ops_in marks.now) s }
{
    match s {
        Simple::Child(p, i, v, bound) => child_step_fault(p, i, v, bound, marks, shapes),
        Simple::ChildGlobal(p, i, g) => child_global_fault(p, i, g, marks, shapes, globals),
        Simple::Pair(a, v, bound) => pair_fault(a, v, bound, marks),
        Simple::Global(g, v, bound) => global_step_fault(g, v, bound, marks, globals),
        Simple::Literal(n) => literal_step_fault(n, marks, shapes),
        Simple::NotRun => 10,
    }
}
