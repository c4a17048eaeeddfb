// The tests of one frame of the plan: a Join, or another step.
ghost use Rattle.validation.specs.Steps.{StepTested};

use hexadecimal::byte_at;
use join_tests::joins::{Tested, join_fault};
use step_tests::simple::{simple_fault, simple_step};

// The number of the first test that a step fails, or 0; and the operator of a Join.
pub fn step_fault(frame: &[u8], marks: &[u16], shapes: &[usize], globals: &[u16]) -> Tested
    ensures { StepTested shapes.now globals.now marks.now frame.now result }
{
    if byte_at(frame, 0) == 0x40 {
        join_fault(frame, marks, shapes, globals)
    } else {
        let fault = simple_fault(simple_step(frame), marks, shapes, globals);
        Tested { fault, op: 0 }
    }
}
