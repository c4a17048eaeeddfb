// The plan's text, by the order of the atoms.
ghost use Rattle.std.specs.Prelude.{◌≡◌, ◌∷◌, map, ◌+◌, ◌<◌, take};
ghost use Rattle.writing.specs.Bound.{blank};
ghost use Rattle.writing.specs.Scheduling.{atom_of};
ghost use Rattle.frame_tests.specs.declared.tests.Text.TheVariants.{Query};
ghost use Rattle.second_reading.specs.Second.{counts_in};
ghost use Rattle.writing.specs.PlanText.{text_length};
ghost use Rattle.writing.specs.StepFrames.{frame_of, header_of};
ghost use Rattle.writing.specs.Eager.{Located, sheet_atoms};
ghost use Rattle.writing.specs.Steps.{Ordered, steps_along};
ghost use Rattle.writing.specs.Written.{PutsFrames};

use frame_tests::tests::Text;
use second_reading::lines::counts_of;
use writing::lines::{Head, header};
use writing::steps::write_steps;

// The length of the plan of the first `count` atoms of the order.
pub fn plan_size(sheet: &[u8], from: &[u16], n: usize, order: &[u8], count: usize) -> usize
    requires located { Located sheet.now from.now n }
    requires ordered { Ordered sheet.now from.now n order.now count }
    ensures { result ≡ 21 + text_length (map frame_of (steps_along (atom_of (sheet_atoms sheet.now)) blank (take count order.now))) }
{
    let mut bound = [false; 64];
    let mut none = [0u8; 1];
    write_steps(sheet, from, n, order, count, &mut bound, &mut none, 21)
}

// The plan, written from the beginning of the output on; its length.
pub fn write_plan(
    sheet: &[u8],
    from: &[u16],
    n: usize,
    order: &[u8],
    count: usize,
    steps: usize,
    tallied: usize,
    rejected: usize,
    out: &mut [u8],
) -> usize
    requires located { Located sheet.now from.now n }
    requires ordered { Ordered sheet.now from.now n order.now count }
    requires steps_bound { steps < 65536 }
    requires tallied_bound { tallied < 65536 }
    requires rejected_bound { rejected < 65536 }
    ensures { PutsFrames out.old 0 (header_of (counts_in Query sheet.now 0).variables (counts_in Query sheet.now 0).globals (counts_in Query sheet.now 0).literals steps tallied rejected ∷ map frame_of (steps_along (atom_of (sheet_atoms sheet.now)) blank (take count order.now))) out.new result }
{
    let counts = counts_of(true, Text::Query, sheet, 0);
    let told = Head {
        variables: counts.variables,
        globals: counts.globals,
        literals: counts.literals,
        steps: steps as u16,
        tallied: tallied as u16,
        rejected: rejected as u16,
    };
    let at = header(told, out, 0);
    let mut bound = [false; 64];
    write_steps(sheet, from, n, order, count, &mut bound, out, at)
}
