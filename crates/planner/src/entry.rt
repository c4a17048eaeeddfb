// The entry: a query text, a table text or none, and a lent output.
ghost use Rattle.std.specs.Prelude.{◌≡◌, ◌≤◌, replicate};
ghost use Rattle.reading.specs.IndexedReading.{Lent};
ghost use Rattle.lent_planning.specs.RowIndex.{rows_at};
ghost use Rattle.lent_planning.specs.Planner.{plan as planned};
ghost use Rattle.lent_planning.specs.Entry.{planned_result};
ghost use Rattle.lent_planning.specs.Handed.{handed};

use lent_planning::accepted::plan_by;
use lent_planning::below::{Refusal, Written};
use reading::second::{
    LONG_INDEX, LONG_SHEET, MIDDLE_INDEX, MIDDLE_SHEET, MIDDLE_TEXT, SHORT_INDEX, SHORT_SHEET,
    SHORT_TEXT, TINY_INDEX, TINY_SHEET, TINY_TEXT,
};

// The plan, by a sheet of S bytes and an index of I numbers.
fn plan_sized<const S: usize, const I: usize>(
    text: &[u8],
    table: Option<&[u8]>,
    out: &mut [u8],
) -> Result<Written, Refusal>
    requires lent { Lent text.now (replicate S 0) (replicate I 0) }
    requires few_bytes { S ≤ 32768 }
    requires few_numbers { I ≤ rows_at }
    ensures { planned_result result out.new ≡ planned text.now (handed table.entry) out.old }
{
    let mut sheet = [0u8; S];
    let mut index = [0u16; I];
    plan_by(text, table, &mut sheet, &mut index, out)
}

// Plans a query text into a lent output, with a table text beside it or none.
pub fn plan(text: &[u8], table: Option<&[u8]>, out: &mut [u8]) -> Result<Written, Refusal>
    ensures { planned_result result out.new ≡ planned text.now (handed table.entry) out.old }
{
    if text.len() <= TINY_TEXT {
        plan_sized::<TINY_SHEET, TINY_INDEX>(text, table, out)
    } else if text.len() <= SHORT_TEXT {
        plan_sized::<SHORT_SHEET, SHORT_INDEX>(text, table, out)
    } else if text.len() <= MIDDLE_TEXT {
        plan_sized::<MIDDLE_SHEET, MIDDLE_INDEX>(text, table, out)
    } else {
        plan_sized::<LONG_SHEET, LONG_INDEX>(text, table, out)
    }
}
