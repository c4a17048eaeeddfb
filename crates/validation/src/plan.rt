// The steps of the plan in turn.
ghost use Rattle.validation.specs.Plans.{PlanReady, StepsTested};

use super::marks::step_marks;
use super::steps::step_fault;
use frames::frame::frame_at;
use frames::walk::Frames;
use table_tests::below::{Refusal, Text};

// The fault of the first step that has one: nothing is bound or picked before the first.
pub fn steps_fault(plan: &[u8], shapes: &[usize], globals: &[u16]) -> Result<(), Refusal>
    requires { PlanReady plan.now shapes.now globals.now }
    ensures { StepsTested plan.now shapes.now globals.now result }
{
    let mut marks = [0u16; 64];
    let header = frame_at(plan, 0);
    let mut n: usize = 1;
    for frame in Frames::of(&plan[header.len()..]) {
        let t = step_fault(frame, &marks, shapes, globals);
        n += 1;
        if t.fault != 0 {
            return Err(Refusal {
                number: t.fault,
                text: Text::Plan,
                line: n,
            });
        }
        step_marks(frame, t.op, &mut marks);
    }
    Ok(())
}
