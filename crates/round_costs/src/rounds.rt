// The costs of a round, for whoever asks how the order came about.
ghost use Rattle.std.specs.Prelude.{◌≡◌, true, ◌≤◌, length, replicate};
ghost use Rattle.std.proofs.Math.Option.{some};
ghost use Rattle.reading.specs.Sheet.{frames_in};
ghost use Rattle.first_reading.specs.First.{frames_of};
ghost use Rattle.reading.specs.IndexedReading.{Lent};
ghost use Rattle.buckets.specs.RowIndex.{rows_at};
ghost use Rattle.given.specs.Asks.{asks_table};
ghost use Rattle.given.specs.Given.{Given};
ghost use Rattle.placing.specs.Eager.{sheet_atoms};
ghost use Rattle.fitting.specs.Accepts.{Accepts};
ghost use Rattle.fitting.specs.Handed.{handed};
ghost use Rattle.fitting.specs.Gathered.{Asks, QueryRead};
ghost use Rattle.round_costs.specs.Costs.{round_of, told, round_result, round_costs};

use buckets::index::TABLE_INDEX;
use cost_bits::bits::NO_COST;
use cost_bits::told::put_round;
use first_reading::first::Refusal;
use fitting::below::{BOTH_SHEETS, find_order, gather, read_beside};
use given::search::asks_table;
use placing::places::atom_places;
use reading::second::{
    LONG_INDEX, LONG_SHEET, MIDDLE_INDEX, MIDDLE_SHEET, MIDDLE_TEXT, SHORT_INDEX, SHORT_SHEET,
    SHORT_TEXT, TINY_INDEX, TINY_SHEET, TINY_TEXT,
};

fn costs_accepted(
    sheet: &[u8],
    index: &[u16],
    round: usize,
    out: &mut [u64],
) -> Result<Option<u8>, Refusal>
    requires accepts { Accepts sheet.now }
    requires given { Given sheet.now index.now }
    ensures { round_result result out.new ≡ told (round_of (frames_in sheet.now) (sheet_atoms sheet.now) round) out.old }
{
    let mut from = [0u16; 128];
    let n = atom_places(sheet, &mut from);
    let mut costs = [NO_COST; 64];
    let s = find_order(sheet, index, &from, n, round, &mut costs);
    put_round(s.chosen.is_some(), &costs, n, out);
    Ok(s.chosen)
}

// The costs of a query that asks for a table, by that table.
fn costs_sampled(
    text: &[u8],
    table: &[u8],
    round: usize,
    costs: &mut [u64],
) -> Result<Option<u8>, Refusal>
    requires asks { Asks text.now }
    requires text_value { asks_table (frames_of text.now) ≡ true }
    ensures { round_result result costs.new ≡ round_costs text.now (some table.now) round costs.old }
{
    let mut sheet = [0u8; BOTH_SHEETS];
    let mut index = [0u16; TABLE_INDEX];
    let mut keys = [0u16; LONG_INDEX];
    let size = gather(text, table, &mut sheet, &mut index, &mut keys)?;
    costs_accepted(&sheet[..size], &index, round, costs)
}

// The costs of a query on its sheet.
fn costs_read(
    text: &[u8],
    table: Option<&[u8]>,
    sheet: &[u8],
    index: &[u16],
    round: usize,
    costs: &mut [u64],
) -> Result<Option<u8>, Refusal>
    requires { QueryRead text.now table sheet.now index.now }
    ensures { round_result result costs.new ≡ round_costs text.now (handed table.entry) round costs.old }
{
    if asks_table(sheet, index) {
        return costs_sampled(text, table.unwrap_or(b""), round, costs);
    }
    costs_accepted(sheet, index, round, costs)
}

// The costs, by a sheet for the query's frames and an index of them that are lent.
fn costs_by(
    text: &[u8],
    table: Option<&[u8]>,
    sheet: &mut [u8],
    index: &mut [u16],
    round: usize,
    costs: &mut [u64],
) -> Result<Option<u8>, Refusal>
    requires lent { Lent text.now sheet.old index.old }
    requires index_len_bound { length index.old ≤ rows_at }
    ensures { round_result result costs.new ≡ round_costs text.now (handed table.entry) round costs.old }
{
    let size = read_beside(text, table, sheet, index)?;
    costs_read(text, table, &sheet[..size], index, round, costs)
}

// The costs, by a sheet of S bytes and an index of I numbers.
fn costs_sized<const S: usize, const I: usize>(
    text: &[u8],
    table: Option<&[u8]>,
    round: usize,
    costs: &mut [u64],
) -> Result<Option<u8>, Refusal>
    requires lent { Lent text.now (replicate S 0) (replicate I 0) }
    requires few_bytes { S ≤ 32768 }
    requires few_numbers { I ≤ rows_at }
    ensures { round_result result costs.new ≡ round_costs text.now (handed table.entry) round costs.old }
{
    let mut sheet = [0u8; S];
    let mut index = [0u16; I];
    costs_by(text, table, &mut sheet, &mut index, round, costs)
}

// The costs of round number `round` of a query, as bits: all ones for an atom that is no candidate, and past the atoms. A table text may be
// handed in beside it.
pub fn round_costs(
    text: &[u8],
    table: Option<&[u8]>,
    round: usize,
    costs: &mut [u64],
) -> Result<Option<u8>, Refusal>
    ensures { round_result result costs.new ≡ round_costs text.now (handed table.entry) round costs.old }
{
    if text.len() <= TINY_TEXT {
        costs_sized::<TINY_SHEET, TINY_INDEX>(text, table, round, costs)
    } else if text.len() <= SHORT_TEXT {
        costs_sized::<SHORT_SHEET, SHORT_INDEX>(text, table, round, costs)
    } else if text.len() <= MIDDLE_TEXT {
        costs_sized::<MIDDLE_SHEET, MIDDLE_INDEX>(text, table, round, costs)
    } else {
        costs_sized::<LONG_SHEET, LONG_INDEX>(text, table, round, costs)
    }
}
