// The run from text to text: the plan is read, then the table, with arrays by the lengths of the two.
ghost use Rattle.std.specs.Prelude.{◌+◌, ◌<◌, ◌^◌, replicate};
ghost use Rattle.frame_tests.specs.Sheet.{frames_in};
ghost use Rattle.first_reading.specs.First.{frames_of};
ghost use Rattle.reading.specs.IndexedReading.{Lent};
ghost use Rattle.modes.specs.Modes.{mode_of};
ghost use Rattle.table_run.specs.Validation.{validation_with};
ghost use Rattle.table_run.specs.Plans.{PlanSheet};
ghost use Rattle.table_run.specs.RunEnds.{Ends};
ghost use Rattle.table_run.specs.SheetRuns.{halt_in};
ghost use Rattle.table_run.specs.TableRuns.{table_tests, TableLent};
ghost use Rattle.execution.specs.TextRuns.{halt_of};

use chains::index::LINKS;
use first_reading::first::sheet_size;
use frame_tests::tests::Text;
use reading::second::{
    LONG_INDEX, LONG_SHEET, MIDDLE_INDEX, MIDDLE_SHEET, MIDDLE_TEXT, SHORT_INDEX, SHORT_SHEET,
    SHORT_TEXT, TINY_INDEX, TINY_SHEET, TINY_TEXT, read_indexed,
};
use table_run::below::{Handed, Refusal};
use table_run::tables::run_table;

// The most rows of a tiny, a short and a longer table: a row's line has ten digits or more. The rows' index has its heads and two links a row.
const TINY_ROWS: usize = 51;

const SHORT_ROWS: usize = 409;

const MOST_ROWS: usize = 1024;

const TINY_LINKS: usize = LINKS + 2 * TINY_ROWS;

const SHORT_LINKS: usize = LINKS + 2 * SHORT_ROWS;

const MOST_LINKS: usize = LINKS + 2 * MOST_ROWS;

// Of the children, two bytes each, there are at most half as many as the sheet has bytes.
const TINY_CHILDREN: usize = TINY_SHEET / 2;

const SHORT_CHILDREN: usize = SHORT_SHEET / 2;

const MIDDLE_CHILDREN: usize = MIDDLE_SHEET / 2;

const LONG_CHILDREN: usize = LONG_SHEET / 2;

// The run of a plan on its sheet over a table text, with arrays of these lengths: for the table's sheet, its index, its rows, their children and their links.
fn run_lent<
    const SHEET: usize,
    const INDEX: usize,
    const ROWS: usize,
    const CHILDREN: usize,
    const LINKED: usize,
>(
    plan: &[u8],
    table: &[u8],
    allowance: u64,
    named: Option<u64>,
    out: &mut [u8],
) -> Result<Handed, Refusal>
    requires plan_sheet { PlanSheet plan.now }
    requires arrays_fit { SHEET + (INDEX + LINKED) < 2 ^ 32 }
    requires table_lent { TableLent table.now (replicate SHEET 0) (replicate INDEX 0) (replicate ROWS 0) (replicate CHILDREN 0) (replicate LINKED 0) }
    ensures { Ends (table_tests (frames_in plan.now) table.now (mode_of named)) (halt_in (frames_in plan.now) (frames_of table.now) (mode_of named) allowance out.old) out.old out.new result }
{
    let mut sheet = [0u8; SHEET];
    let mut index = [0u16; INDEX];
    let mut rows = [0u64; ROWS];
    let mut children = [0u16; CHILDREN];
    let mut links = [0u16; LINKED];
    run_table(
        plan,
        table,
        &mut sheet,
        &mut index,
        &mut rows,
        &mut children,
        &mut links,
        allowance,
        named,
        out,
    )
}

// The same, by the table's length.
fn run_sized(
    plan: &[u8],
    table: &[u8],
    allowance: u64,
    named: Option<u64>,
    out: &mut [u8],
) -> Result<Handed, Refusal>
    requires { PlanSheet plan.now }
    ensures { Ends (table_tests (frames_in plan.now) table.now (mode_of named)) (halt_in (frames_in plan.now) (frames_of table.now) (mode_of named) allowance out.old) out.old out.new result }
{
    if table.len() <= TINY_TEXT {
        return run_lent::<TINY_SHEET, TINY_INDEX, TINY_ROWS, TINY_CHILDREN, TINY_LINKS>(
            plan, table, allowance, named, out,
        );
    }
    if table.len() <= SHORT_TEXT {
        return run_lent::<SHORT_SHEET, SHORT_INDEX, SHORT_ROWS, SHORT_CHILDREN, SHORT_LINKS>(
            plan, table, allowance, named, out,
        );
    }
    if table.len() <= MIDDLE_TEXT {
        return run_lent::<MIDDLE_SHEET, MIDDLE_INDEX, MOST_ROWS, MIDDLE_CHILDREN, MOST_LINKS>(
            plan, table, allowance, named, out,
        );
    }
    run_lent::<LONG_SHEET, LONG_INDEX, MOST_ROWS, LONG_CHILDREN, MOST_LINKS>(
        plan, table, allowance, named, out,
    )
}

// The run of a plan text, with a sheet and an index that are lent for it.
fn run_plan(
    plan: &[u8],
    table: &[u8],
    sheet: &mut [u8],
    index: &mut [u16],
    allowance: u64,
    named: Option<u64>,
    out: &mut [u8],
) -> Result<Handed, Refusal>
    requires { Lent plan.now sheet.old index.old }
    ensures { Ends (validation_with plan.now table.now (mode_of named)) (halt_of plan.now table.now (mode_of named) allowance out.old) out.old out.new result }
{
    let lines = match read_indexed(Text::Plan, plan, sheet, index) {
        Ok(lines) => lines,
        Err(fault) => return Err(fault.of(Text::Plan)),
    };
    let size = sheet_size(plan.len(), lines.count);
    run_sized(&sheet[..size], table, allowance, named, out)
}

// The same with a sheet and an index of its own, of these lengths.
fn run_read<const SHEET: usize, const INDEX: usize>(
    plan: &[u8],
    table: &[u8],
    allowance: u64,
    named: Option<u64>,
    out: &mut [u8],
) -> Result<Handed, Refusal>
    requires arrays_fit { SHEET + INDEX < 2 ^ 32 }
    requires lent { Lent plan.now (replicate SHEET 0) (replicate INDEX 0) }
    ensures { Ends (validation_with plan.now table.now (mode_of named)) (halt_of plan.now table.now (mode_of named) allowance out.old) out.old out.new result }
{
    let mut sheet = [0u8; SHEET];
    let mut index = [0u16; INDEX];
    run_plan(plan, table, &mut sheet, &mut index, allowance, named, out)
}

// The same with arrays by the plan's length.
pub fn run_texts(
    plan: &[u8],
    table: &[u8],
    allowance: u64,
    named: Option<u64>,
    out: &mut [u8],
) -> Result<Handed, Refusal>
    ensures { Ends (validation_with plan.now table.now (mode_of named)) (halt_of plan.now table.now (mode_of named) allowance out.old) out.old out.new result }
{
    if plan.len() <= TINY_TEXT {
        return run_read::<TINY_SHEET, TINY_INDEX>(plan, table, allowance, named, out);
    }
    if plan.len() <= SHORT_TEXT {
        return run_read::<SHORT_SHEET, SHORT_INDEX>(plan, table, allowance, named, out);
    }
    if plan.len() <= MIDDLE_TEXT {
        return run_read::<MIDDLE_SHEET, MIDDLE_INDEX>(plan, table, allowance, named, out);
    }
    run_read::<LONG_SHEET, LONG_INDEX>(plan, table, allowance, named, out)
}
