// The plan of a query that is read onto a lent sheet.
ghost use Rattle.std.specs.Prelude.{◌≡◌, true, ◌≤◌, length};
ghost use Rattle.std.proofs.Math.Option.{some};
ghost use Rattle.first_reading.specs.First.{frames_of};
ghost use Rattle.reading.specs.IndexedReading.{Lent};
ghost use Rattle.buckets.specs.RowIndex.{rows_at};
ghost use Rattle.given.specs.Asks.{asks_table};
ghost use Rattle.given.specs.Given.{Given};
ghost use Rattle.fitting.specs.Planner.{fitted, plan as planned};
ghost use Rattle.fitting.specs.Accepts.{Accepts};
ghost use Rattle.fitting.specs.Handed.{handed};
ghost use Rattle.fitting.specs.Gathered.{Asks, QueryRead};
ghost use Rattle.fitting.specs.Entry.{plan_on, planned_result};

use buckets::index::TABLE_INDEX;
use first_reading::first::Refusal;
use fitting::below::{BOTH_SHEETS, gather, plan_order, read_beside};
use fitting::fit::{Written, plan_in_order};
use given::search::asks_table;
use placing::places::atom_places;
use reading::second::LONG_INDEX;

fn plan_accepted(sheet: &[u8], index: &[u16], out: &mut [u8]) -> Result<Written, Refusal>
    requires accepts { Accepts sheet.now }
    requires given { Given sheet.now index.now }
    ensures { planned_result result out.new ≡ fitted (plan_on sheet.now) out.old }
{
    let mut from = [0u16; 128];
    let n = atom_places(sheet, &mut from);
    let s = plan_order(sheet, index, &from, n);
    plan_in_order(sheet, &from, n, s, out)
}

// The plan of a query that asks for a table, by that table.
fn plan_sampled(text: &[u8], table: &[u8], out: &mut [u8]) -> Result<Written, Refusal>
    requires asks { Asks text.now }
    requires text_value { asks_table (frames_of text.now) ≡ true }
    ensures { planned_result result out.new ≡ planned text.now (some table.now) out.old }
{
    let mut sheet = [0u8; BOTH_SHEETS];
    let mut index = [0u16; TABLE_INDEX];
    let mut keys = [0u16; LONG_INDEX];
    let size = gather(text, table, &mut sheet, &mut index, &mut keys)?;
    plan_accepted(&sheet[..size], &index, out)
}

// The plan of a query on its sheet. A table is looked at where frame 24 asks for it.
fn plan_read(
    text: &[u8],
    table: Option<&[u8]>,
    sheet: &[u8],
    index: &[u16],
    out: &mut [u8],
) -> Result<Written, Refusal>
    requires { QueryRead text.now table sheet.now index.now }
    ensures { planned_result result out.new ≡ planned text.now (handed table.entry) out.old }
{
    if asks_table(sheet, index) {
        return plan_sampled(text, table.unwrap_or(b""), out);
    }
    plan_accepted(sheet, index, out)
}

// The plan, by a sheet for the query's frames and an index of them that are lent.
pub fn plan_by(
    text: &[u8],
    table: Option<&[u8]>,
    sheet: &mut [u8],
    index: &mut [u16],
    out: &mut [u8],
) -> Result<Written, Refusal>
    requires lent { Lent text.now sheet.old index.old }
    requires index_len_bound { length index.old ≤ rows_at }
    ensures { planned_result result out.new ≡ planned text.now (handed table.entry) out.old }
{
    let size = read_beside(text, table, sheet, index)?;
    plan_read(text, table, &sheet[..size], index, out)
}
