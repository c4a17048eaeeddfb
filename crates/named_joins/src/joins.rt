// The last of a run's tests: the atom that it names has a Join.
ghost use Rattle.std.specs.Prelude.{◌≡◌, length};
ghost use Rattle.frames.specs.Sheet.{frames_in};
ghost use Rattle.modes.specs.Index.{Indexed};
ghost use Rattle.modes.specs.Refusing.{is_join_of, has_join};
ghost use Rattle.modes.specs.Modes.{mode_of};
ghost use Rattle.table_tests.specs.StepFrames.{step_of};
ghost use Rattle.table_tests.specs.Tables.{steps_in};
ghost use Rattle.table_tests.specs.Validation.{named_joins};
ghost use Rattle.table_tests.specs.Shapes.{verdict};
ghost use Rattle.validation.specs.Plans.{PlanSheet};
ghost use Rattle.named_joins.specs.NamedJoins.{ValidatedWith};

use frames::frame::frame_at;
use frames::walk::Frames;
use hexadecimal::byte_at;
use table_tests::below::{Refusal, Text};
use validation::validate::validate;

// Whether a frame of the plan is a Join of that atom.
pub fn joins_atom(frame: &[u8], atom: u64) -> bool
    ensures { result ≡ is_join_of atom (step_of frame.now) }
{
    byte_at(frame, 0) == 0x40 && u64::from(byte_at(frame, 2)) == atom
}

// Whether any behind the header is.
pub fn has_join(plan: &[u8], atom: u64) -> bool
    ensures { result ≡ has_join atom (steps_in (frames_in plan.now)) }
{
    let header = frame_at(plan, 0);
    for frame in Frames::of(&plan[header.len()..]) {
        if joins_atom(frame, atom) {
            return true;
        }
    }
    false
}

fn named_fault(plan: &[u8], named: Option<u64>) -> Result<(), Refusal>
    ensures { verdict result ≡ named_joins (mode_of named) (steps_in (frames_in plan.now)) }
{
    let Some(atom) = named else {
        return Ok(());
    };
    if has_join(plan, atom) {
        Ok(())
    } else {
        Err(Refusal {
            number: 12,
            text: Text::Plan,
            line: 0,
        })
    }
}

// All tests behind the reading of both texts, on their sheets, that of the named atom last.
pub fn validate_run(
    plan: &[u8],
    table: &[u8],
    index: &[u16],
    globals: &mut [u16],
    named: Option<u64>,
) -> Result<(), Refusal>
    requires plan_sheet { PlanSheet plan.now }
    requires indexed { Indexed table.now index.now }
    requires globals_len { length globals.old ≡ 16 }
    ensures { ValidatedWith plan.now table.now (mode_of named) result globals.new }
{
    let tested = validate(plan, table, index, globals);
    let joined = named_fault(plan, named);
    tested.and(joined)
}
