// The tests of a Join: 10, 9, 11 and the missing global.
ghost use Rattle.std.specs.Prelude.{◌≡◌};
ghost use Rattle.join_tests.specs.Arrays.{bound_in};
ghost use Rattle.join_tests.specs.Lookups.{seen_fault, join_tested};

use super::arrays::reach_fits;
use super::seen::{Seen, lookups_seen};

// A fault's number, or 0; and the operator of a Join's ByOp.
#[derive(Clone, Copy)]
pub struct Tested {
    pub fault: u8,
    pub op: u8,
}

// The fault of a Join by what was seen of its lookups.
fn seen_fault(s: Seen, shapes: &[usize]) -> u8
    ensures { result ≡ seen_fault shapes.now s }
{
    if s.ops != 1 {
        return 10;
    }
    if !s.read {
        return 9;
    }
    if !s.free {
        return 9;
    }
    if !reach_fits(shapes, usize::from(s.op), s.reach) {
        return 11;
    }
    if !s.given {
        return 5;
    }
    0
}

// The fault of a Join's frame.
pub fn join_fault(frame: &[u8], marks: &[u16], shapes: &[usize], globals: &[u16]) -> Tested
    ensures { result ≡ join_tested shapes.now (bound_in marks.now) globals.now frame.now }
{
    let s = lookups_seen(frame, marks, globals);
    let fault = seen_fault(s, shapes);
    Tested { fault, op: s.op }
}
