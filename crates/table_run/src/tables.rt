// The run of a plan on its sheet over a table text: the table is read, then run on its sheet.
ghost use Rattle.frame_tests.specs.Sheet.{frames_in};
ghost use Rattle.first_reading.specs.First.{frames_of};
ghost use Rattle.modes.specs.Modes.{mode_of};
ghost use Rattle.sheet_run.specs.Plans.{PlanSheet};
ghost use Rattle.sheet_run.specs.RunEnds.{Ends};
ghost use Rattle.sheet_run.specs.SheetRuns.{halt_in};
ghost use Rattle.table_run.specs.TableRuns.{table_tests, TableLent};

use first_reading::first::sheet_size;
use frame_tests::tests::Text;
use reading::second::read_indexed;
use sheet_run::below::{Handed, Refusal};
use sheet_run::sheets::run_sheets;

// The run of the plan on a sheet over a table text, with the arrays that are lent for the table.
pub fn run_table(
    plan: &[u8],
    table: &[u8],
    sheet: &mut [u8],
    index: &mut [u16],
    rows: &mut [u64],
    children: &mut [u16],
    links: &mut [u16],
    allowance: u64,
    named: Option<u64>,
    out: &mut [u8],
) -> Result<Handed, Refusal>
    requires plan_sheet { PlanSheet plan.now }
    requires table_lent { TableLent table.now sheet.old index.old rows.old children.old links.old }
    ensures { Ends (table_tests (frames_in plan.now) table.now (mode_of named)) (halt_in (frames_in plan.now) (frames_of table.now) (mode_of named) allowance out.old) out.old out.new result }
{
    let lines = match read_indexed(Text::Table, table, sheet, index) {
        Ok(lines) => lines,
        Err(fault) => return Err(fault.of(Text::Table)),
    };
    let size = sheet_size(table.len(), lines.count);
    run_sheets(
        plan,
        &sheet[..size],
        index,
        rows,
        children,
        links,
        allowance,
        named,
        out,
    )
}
