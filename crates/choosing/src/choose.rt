// The cheapest of the atoms that are left.
ghost use Rattle.std.specs.Prelude.{◌≡◌, map, ◌+◌, ◌<◌, ◌≤◌, length};
ghost use Rattle.std.proofs.Math.Option.{none};
ghost use Rattle.cost.specs.Sheet.{frames_in};
ghost use Rattle.cost.specs.Given.{Given};
ghost use Rattle.cost.specs.Bound.{bound_most};
ghost use Rattle.cost.specs.Scheduling.{numbers};
ghost use Rattle.cost.specs.Emitters.{decode};
ghost use Rattle.cost.specs.Memo.{tally_at};
ghost use Rattle.cost.specs.Choice.{offers};
ghost use Rattle.passes.specs.Eager.{Located, sheet_atoms};
ghost use Rattle.prices.specs.Prices.{Priced};
ghost use Rattle.bidding.specs.Remembering.{Samples, Remembers};
ghost use Rattle.choosing.specs.Choosing.{candidates, Chose};

use advancing::advance::Scheduler;
use bidding::bid::{Best, better, is_candidate};
use cost::memo::Sampling;
use cost_bits::bits::{NO_COST, note_cost};
use passes::eager::atom_line;
use prices::table::row_of;
use pricing::costs::estimate_cost;
use sqrt::bits_of;

// The cheapest of the n atoms, of those that are not used and scan; the bits of each cost are noted.
pub fn cheapest(
    sheet: &[u8],
    index: &[u16],
    from: &[u16],
    n: usize,
    prices: &[f64],
    d: Scheduler,
    keys: &mut [u64],
    values: &mut [f64],
    costs: &mut [u64],
    s: Sampling,
) -> Best
    requires located { Located sheet.now from.now n }
    requires bound_len { (length d.bound ≡ bound_most) × (length d.emitters ≡ bound_most) }
    requires samples { Samples (frames_in sheet.now) s.how }
    requires remembers { Remembers (frames_in sheet.now) s.how keys.old values.old s }
    requires none_in_bounds { length (candidates (frames_in sheet.now) (map decode d.emitters) (sheet_atoms sheet.now) d.used d.bound (numbers (sheet_atoms sheet.now)) (tally_at keys.old s) none).next.memo ≤ length keys.old }
    requires given { Given sheet.now index.now }
    requires priced { Priced sheet.now from.now n prices.now }
    ensures { Chose (frames_in sheet.now) s.how keys.new values.new costs.new result (candidates (frames_in sheet.now) (map decode d.emitters) (sheet_atoms sheet.now) d.used d.bound (numbers (sheet_atoms sheet.now)) (tally_at keys.old s) none) (offers (frames_in sheet.now) (map decode d.emitters) (sheet_atoms sheet.now) d.used d.bound (numbers (sheet_atoms sheet.now)) (tally_at keys.old s)) }
{
    let mut b = Best {
        choice: None,
        tallies: s,
    };
    for i in 0..n {
        let k = i as u8;
        let frame = atom_line(sheet, from, i);
        if !is_candidate(frame, k, &d.used) {
            note_cost(costs, i, NO_COST);
            continue;
        }
        let row = row_of(prices, i);
        let c = estimate_cost(
            sheet,
            index,
            frame,
            row,
            k,
            &d.bound,
            &d.emitters,
            keys,
            values,
            b.tallies,
        );
        note_cost(costs, i, bits_of(c.cost));
        b = better(k, c, b);
    }
    b
}
