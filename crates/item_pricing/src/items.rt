// The items of an atom's frame that are bound, each by its sample, else by its price.
ghost use Rattle.std.specs.Prelude.{◌≡◌, map, ◌+◌, ◌*◌, ◌<◌, ◌≤◌, length};
ghost use Rattle.query.specs.Sheet.{frames_in};
ghost use Rattle.query.specs.Given.{Given};
ghost use Rattle.measure.specs.Selectivity.{path_selectivity};
ghost use Rattle.query.specs.Statistics.{denominator as denominator_of};
ghost use Rattle.samples.specs.Emitters.{decode};
ghost use Rattle.samples.specs.Remembering.{Samples, Remembers};
ghost use Rattle.prices.specs.Items.{item_fan, or_fan};
ghost use Rattle.prices.specs.Prices.{ItemPriced};
ghost use Rattle.item_pricing.specs.ItemCosts.{item_probe, cost_behind, Stands, cost_at};

use measure::path_selectivity;
use prices::items::Item;
use query::statistics::denominator;
use samples::below::Sampling;
use samples::sampled::{Probe, sampled};

// A cost, and what is remembered behind it.
#[derive(Clone, Copy)]
pub struct Costed {
    pub cost: f64,
    pub tallies: Sampling,
}

// A child's position, or an element.
fn item_probe(x: Item) -> Probe
    ensures { result ≡ item_probe x }
{
    if x.element {
        return Probe {
            op: x.op,
            path: 1,
            place: 0,
        };
    }
    Probe {
        op: x.op,
        path: 0,
        place: x.position,
    }
}

// The selectivity of an item: by its sample, else as its row has it.
fn item_selectivity(sheet: &[u8], index: &[u16], row: &[f64], x: Item, drawn: Option<f64>) -> f64
    requires given { Given sheet.now index.now }
    requires item_priced { ItemPriced (frames_in sheet.now) x row.now }
    ensures { result ≡ path_selectivity (or_fan drawn (item_fan (frames_in sheet.now) x.op x.element x.position)) (denominator_of (frames_in sheet.now) x.op) }
{
    match drawn {
        Some(_) => path_selectivity(drawn, denominator(sheet, index, x.op)),
        None => row[usize::from(x.position) + 2],
    }
}

// An item that is bound has its selectivity multiplied in.
pub fn item_cost(
    sheet: &[u8],
    index: &[u16],
    frame: &[u8],
    row: &[f64],
    x: Item,
    em: &[u32],
    keys: &mut [u64],
    values: &mut [f64],
    c: Costed,
) -> Costed
    requires at_bound { x.at < 65536 }
    requires samples { Samples (frames_in sheet.now) c.tallies.how }
    requires remembers { Remembers (frames_in sheet.now) c.tallies.how keys.old values.old c.tallies }
    requires c_in_bounds { length (cost_behind (frames_in sheet.now) (map decode em.now) frame.now x (cost_at keys.old c)).tally.memo ≤ length keys.old }
    requires given { Given sheet.now index.now }
    requires item_priced { ItemPriced (frames_in sheet.now) x row.now }
    ensures { Stands (frames_in sheet.now) c.tallies.how keys.new values.new result (cost_behind (frames_in sheet.now) (map decode em.now) frame.now x (cost_at keys.old c)) }
{
    if !x.bound {
        return c;
    }
    let q = item_probe(x);
    let s = sampled(sheet, index, frame, x.at, em, q, keys, values, c.tallies);
    Costed {
        cost: c.cost * item_selectivity(sheet, index, row, x, s.fan),
        tallies: s.tallies,
    }
}
