// The prices of a query's atoms that no sample changes, in one table: each is found once, before the rounds.
ghost use Rattle.std.specs.Prelude.{◌≡◌, ◌+◌, ◌-◌, ◌*◌, ◌<◌, ◌≤◌, length, take, drop};
ghost use Rattle.frames.specs.Sheet.{frames_in};
ghost use Rattle.kinds.specs.Kinds.{items_of};
ghost use Rattle.frames.specs.Frames.{kind_of};
ghost use Rattle.passes.specs.Given.{Given};
ghost use Rattle.passes.specs.Eager.{Located};
ghost use Rattle.prices.specs.Items.{item_fan, repr_selectivity};
ghost use Rattle.prices.specs.Prices.{row_size, ItemsPriced, AtomPrices, FewItems, Priced};

use super::items::{Items, items_at};
use measure::path_selectivity;
use passes::below::{base_card, by_child_pos, by_contains, by_repr, denominator, nodes};
use passes::eager::atom_line;

// How many numbers a row has, and a table of 64 rows.
pub const ROW_SIZE: usize = 18;

pub const TABLE_SIZE: usize = 64 * ROW_SIZE;

// The row of atom number k.
pub fn row_of(prices: &[f64], k: usize) -> &[f64]
    requires { row_size * k + row_size ≤ length prices.now }
    ensures { result.now ≡ take (row_size * k + row_size - row_size * k) (drop (row_size * k) prices.now) }
{
    let at = ROW_SIZE * k;
    let end = at + ROW_SIZE;
    &prices[at..end]
}

// The measured fan-out of an item at a position.
fn item_fan(sheet: &[u8], index: &[u16], g: Items, position: u8) -> Option<f64>
    requires { Given sheet.now index.now }
    ensures { result ≡ item_fan (frames_in sheet.now) g.op g.elements position }
{
    if g.elements {
        return by_contains(sheet, index, g.op);
    }
    by_child_pos(sheet, index, g.op, position)
}

// The selectivities of the items, from the third number of a row on.
fn fill_items(sheet: &[u8], index: &[u16], g: Items, row: &mut [f64])
    requires count_bound { g.count < 256 }
    requires count_in_bounds { g.count + 2 ≤ length row.old }
    requires given { Given sheet.now index.now }
    ensures { ItemsPriced (frames_in sheet.now) g g.count row.old row.new }
{
    let denom = denominator(sheet, index, g.op);
    for j in 0..g.count {
        let fan = item_fan(sheet, index, g, j as u8);
        row[j + 2] = path_selectivity(fan, denom);
    }
}

// The row of atom number k, by its frame; `repr` is the selectivity of a node that is bound.
fn fill_row(sheet: &[u8], index: &[u16], frame: &[u8], k: u8, repr: f64, row: &mut [f64])
    requires repr_value { repr ≡ repr_selectivity (frames_in sheet.now) }
    requires frame_in_bounds { items_of (kind_of frame.now) frame.now + 2 ≤ length row.old }
    requires given { Given sheet.now index.now }
    ensures { AtomPrices (frames_in sheet.now) frame.now k row.new }
{
    let g = items_at(frame);
    let base = base_card(sheet, index, g.op, k);
    row[0] = base;
    row[1] = base * repr;
    fill_items(sheet, index, g, row)
}

// The rows of the n atoms.
pub fn fill_prices(sheet: &[u8], index: &[u16], from: &[u16], n: usize, prices: &mut [f64])
    requires located { Located sheet.now from.now n }
    requires few_items { FewItems sheet.now from.now n }
    requires n_in_bounds { row_size * n ≤ length prices.old }
    requires given { Given sheet.now index.now }
    ensures { Priced sheet.now from.now n prices.new }
{
    let repr = path_selectivity(Some(by_repr(sheet, index)), nodes(sheet, index));
    for k in 0..n {
        let frame = atom_line(sheet, from, k);
        let at = ROW_SIZE * k;
        let end = at + ROW_SIZE;
        fill_row(sheet, index, frame, k as u8, repr, &mut prices[at..end]);
    }
}
