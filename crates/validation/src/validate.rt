// The runner's tests behind the reading of plan and table: first the table's shapes, then the plan's steps.
ghost use Rattle.std.specs.Prelude.{◌≡◌, length};
ghost use Rattle.join_tests.specs.Index.{Indexed};
ghost use Rattle.validation.specs.Plans.{PlanSheet, Validated};

use super::plan::steps_fault;
use table_tests::below::Refusal;
use table_tests::globals::global_classes;
use table_tests::shapes::shapes_fault;

// The tests behind the reading of both texts, on their sheets; `index` is the table's. Where they pass, the globals have their classes.
pub fn validate(
    plan: &[u8],
    table: &[u8],
    index: &[u16],
    globals: &mut [u16],
) -> Result<(), Refusal>
    requires plan_sheet { PlanSheet plan.now }
    requires indexed { Indexed table.now index.now }
    requires globals_len { length globals.old ≡ 16 }
    ensures { Validated plan.now table.now result globals.new }
{
    let mut shapes = [0usize; 256];
    shapes_fault(table, &mut shapes)?;
    global_classes(table, index, globals);
    steps_fault(plan, &shapes, globals)
}
