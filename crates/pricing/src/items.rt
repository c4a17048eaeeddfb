// The items of an atom's frame, one behind the other.
ghost use Rattle.std.specs.Prelude.{map, ◌+◌, ◌<◌, ◌≤◌, length};
ghost use Rattle.cost.specs.Sheet.{frames_in};
ghost use Rattle.cost.specs.Given.{Given};
ghost use Rattle.cost.specs.Emitters.{decode};
ghost use Rattle.item_pricing.specs.Remembering.{Samples, Remembers};
ghost use Rattle.prices.specs.Prices.{RowItems};
ghost use Rattle.item_pricing.specs.ItemCosts.{frame_costs, Stands, cost_at};

use item_pricing::items::{Costed, item_cost};
use prices::items::{item_at, items_at};

// The items of a frame, one behind the other.
pub fn item_costs(
    sheet: &[u8],
    index: &[u16],
    frame: &[u8],
    row: &[f64],
    bound: &[bool],
    em: &[u32],
    keys: &mut [u64],
    values: &mut [f64],
    start: Costed,
) -> Costed
    requires samples { Samples (frames_in sheet.now) start.tallies.how }
    requires remembers { Remembers (frames_in sheet.now) start.tallies.how keys.old values.old start.tallies }
    requires start_in_bounds { length (frame_costs (frames_in sheet.now) (map decode em.now) bound.now frame.now (cost_at keys.old start)).tally.memo ≤ length keys.old }
    requires given { Given sheet.now index.now }
    requires row_items { RowItems (frames_in sheet.now) frame.now row.now }
    ensures { Stands (frames_in sheet.now) start.tallies.how keys.new values.new result (frame_costs (frames_in sheet.now) (map decode em.now) bound.now frame.now (cost_at keys.old start)) }
{
    let g = items_at(frame);
    let mut c = start;
    for k in 0..g.count {
        let x = item_at(frame, g, k, bound);
        c = item_cost(sheet, index, frame, row, x, em, keys, values, c);
    }
    c
}
