// The order in which the atoms of an accepted query are lowered, in the rounds up to number `last`, and the costs of the last one.
ghost use Rattle.std.specs.Prelude.{◌≡◌, suc, ◌*◌, ◌≤◌, length};
ghost use Rattle.query.specs.Sheet.{frames_in};
ghost use Rattle.query.specs.Given.{Given};
ghost use Rattle.memo_entries.specs.Choice.{rounds};
ghost use Rattle.memo_entries.specs.Memo.{keys_most};
ghost use Rattle.placing.specs.Eager.{sheet_atoms};
ghost use Rattle.placing.specs.Places.{Places};
ghost use Rattle.prices.specs.Prices.{row_size, table_size};
ghost use Rattle.scheduling.specs.Remembering.{Samples};
ghost use Rattle.scheduling.specs.Rounds.{Scheduling, Rounded};
ghost use Rattle.ordering.specs.Accepts.{Accepts};

use memo_entries::entry::KEYS_MOST;
use prices::table::{ROW_SIZE, TABLE_SIZE, fill_prices};
use query::below::SamplerConfig;
use query::statistics::settings;
use scheduling::schedule::{Scheduled, schedule};

// How many atoms have room in the least table of prices, in a small and in a middling one.
const LEAST_ATOMS: usize = 2;

const FEW_ATOMS: usize = 4;

const SOME_ATOMS: usize = 12;

const LEAST_PRICES: usize = LEAST_ATOMS * ROW_SIZE;

const FEW_PRICES: usize = FEW_ATOMS * ROW_SIZE;

const SOME_PRICES: usize = SOME_ATOMS * ROW_SIZE;

// A table of prices with P places: the prices that no sample changes, then the rounds. The arrays lent are for what is remembered.
fn order_with<const P: usize>(
    sheet: &[u8],
    index: &[u16],
    from: &[u16],
    n: usize,
    how: Option<SamplerConfig>,
    keys: &mut [u64],
    values: &mut [f64],
    last: usize,
    costs: &mut [u64],
) -> Scheduled
    requires accepts { Accepts sheet.now }
    requires places { Places sheet.now from.now n }
    requires given { Given sheet.now index.now }
    requires samples { Samples (frames_in sheet.now) how }
    requires values_len { (length values.old ≡ length keys.old) × (length keys.old ≤ keys_most) }
    requires last_in_bounds { length (rounds (frames_in sheet.now) (sheet_atoms sheet.now) (suc last)).memory.tally.memo ≤ length keys.old }
    requires n_in_bounds { row_size * n ≤ P }
    requires few_prices { P ≤ table_size }
    ensures { Rounded sheet.now last costs.new result }
{
    let mut prices = [0.0; P];
    fill_prices(sheet, index, from, n, &mut prices);
    schedule(
        sheet, index, from, n, &prices, how, keys, values, last, costs,
    )
}

// A table of prices by the number of atoms.
fn order_in(
    sheet: &[u8],
    index: &[u16],
    from: &[u16],
    n: usize,
    how: Option<SamplerConfig>,
    keys: &mut [u64],
    values: &mut [f64],
    last: usize,
    costs: &mut [u64],
) -> Scheduled
    requires accepts { Accepts sheet.now }
    requires places { Places sheet.now from.now n }
    requires given { Given sheet.now index.now }
    requires samples { Samples (frames_in sheet.now) how }
    requires values_len { (length values.old ≡ length keys.old) × (length keys.old ≤ keys_most) }
    requires last_in_bounds { length (rounds (frames_in sheet.now) (sheet_atoms sheet.now) (suc last)).memory.tally.memo ≤ length keys.old }
    ensures { Rounded sheet.now last costs.new result }
{
    if n <= LEAST_ATOMS {
        order_with::<LEAST_PRICES>(sheet, index, from, n, how, keys, values, last, costs)
    } else if n <= FEW_ATOMS {
        order_with::<FEW_PRICES>(sheet, index, from, n, how, keys, values, last, costs)
    } else if n <= SOME_ATOMS {
        order_with::<SOME_PRICES>(sheet, index, from, n, how, keys, values, last, costs)
    } else {
        order_with::<TABLE_SIZE>(sheet, index, from, n, how, keys, values, last, costs)
    }
}

// The items of an atom, and the keys of so many atoms as have room in a middling table: one for each item at most.
const ITEMS_MOST: usize = 16;

const SOME_KEYS: usize = SOME_ATOMS * ITEMS_MOST;

// Room for K keys and what is remembered by them.
fn order_remembering<const K: usize>(
    sheet: &[u8],
    index: &[u16],
    from: &[u16],
    n: usize,
    how: Option<SamplerConfig>,
    last: usize,
    costs: &mut [u64],
) -> Scheduled
    requires accepts { Accepts sheet.now }
    requires places { Places sheet.now from.now n }
    requires given { Given sheet.now index.now }
    requires samples { Samples (frames_in sheet.now) how }
    requires few_keys { K ≤ keys_most }
    requires last_in_bounds { length (rounds (frames_in sheet.now) (sheet_atoms sheet.now) (suc last)).memory.tally.memo ≤ K }
    ensures { Rounded sheet.now last costs.new result }
{
    let mut keys = [0u64; K];
    let mut values = [0.0; K];
    order_in(
        sheet,
        index,
        from,
        n,
        how,
        &mut keys,
        &mut values,
        last,
        costs,
    )
}

// Where sampling is on there is a key for each item of each atom at most.
fn order_sampled(
    sheet: &[u8],
    index: &[u16],
    from: &[u16],
    n: usize,
    how: Option<SamplerConfig>,
    last: usize,
    costs: &mut [u64],
) -> Scheduled
    requires accepts { Accepts sheet.now }
    requires places { Places sheet.now from.now n }
    requires given { Given sheet.now index.now }
    requires samples { Samples (frames_in sheet.now) how }
    ensures { Rounded sheet.now last costs.new result }
{
    if n <= SOME_ATOMS {
        order_remembering::<SOME_KEYS>(sheet, index, from, n, how, last, costs)
    } else {
        order_remembering::<KEYS_MOST>(sheet, index, from, n, how, last, costs)
    }
}

// Where sampling is off nothing is remembered.
pub fn find_order(
    sheet: &[u8],
    index: &[u16],
    from: &[u16],
    n: usize,
    last: usize,
    costs: &mut [u64],
) -> Scheduled
    requires accepts { Accepts sheet.now }
    requires places { Places sheet.now from.now n }
    requires given { Given sheet.now index.now }
    ensures { Rounded sheet.now last costs.new result }
{
    let how = settings(sheet, index);
    match how {
        None => order_remembering::<1>(sheet, index, from, n, how, last, costs),
        Some(_) => order_sampled(sheet, index, from, n, how, last, costs),
    }
}

// The order of all atoms: as many rounds as atoms, and one, are enough.
pub fn plan_order(sheet: &[u8], index: &[u16], from: &[u16], n: usize) -> Scheduled
    requires accepts { Accepts sheet.now }
    requires places { Places sheet.now from.now n }
    requires given { Given sheet.now index.now }
    ensures { Scheduling sheet.now result }
{
    let mut costs = [0u64; 1];
    find_order(sheet, index, from, n, n, &mut costs)
}
