// The cost of an atom, read off its frame. "Costs: each operation rounded once, in the order given by the Rust."
ghost use Rattle.std.specs.Prelude.{◌≡◌, map, ◌≤◌, length};
ghost use Rattle.cost.specs.Sheet.{frames_in};
ghost use Rattle.cost.specs.Given.{Given};
ghost use Rattle.cost.specs.Costs.{estimate_cost};
ghost use Rattle.cost.specs.Emitters.{decode};
ghost use Rattle.cost.specs.Memo.{tally_at};
ghost use Rattle.cost.specs.QueryAtoms.{atom_of_frame};
ghost use Rattle.lowering.specs.AtomLines.{AtomLine};
ghost use Rattle.item_pricing.specs.Remembering.{Samples, Remembers};
ghost use Rattle.prices.specs.Prices.{AtomPrices};
ghost use Rattle.item_pricing.specs.ItemCosts.{Stands};
ghost use Rattle.pricing.specs.LiteralKinds.{literal_kind};

use super::items::item_costs;
use binding::sets::is_set;
use cost::memo::Sampling;
use hexadecimal::byte_at;
use item_pricing::items::Costed;
use lowering::atom::scans;

// Whether a kind is Lit or LitBind.
fn is_literal(kind: u8) -> bool
    ensures { result ≡ literal_kind kind }
{
    kind == 2 || kind == 3
}

// The cost of atom number k, by its frame.
pub fn estimate_cost(
    sheet: &[u8],
    index: &[u16],
    frame: &[u8],
    row: &[f64],
    k: u8,
    bound: &[bool],
    em: &[u32],
    keys: &mut [u64],
    values: &mut [f64],
    s: Sampling,
) -> Costed
    requires atom_line { AtomLine frame.now }
    requires samples { Samples (frames_in sheet.now) s.how }
    requires remembers { Remembers (frames_in sheet.now) s.how keys.old values.old s }
    requires s_in_bounds { length (estimate_cost (frames_in sheet.now) (map decode em.now) bound.now k (atom_of_frame frame.now) (tally_at keys.old s)).tally.memo ≤ length keys.old }
    requires given { Given sheet.now index.now }
    requires atom_prices { AtomPrices (frames_in sheet.now) frame.now k row.now }
    ensures { Stands (frames_in sheet.now) s.how keys.new values.new result (estimate_cost (frames_in sheet.now) (map decode em.now) bound.now k (atom_of_frame frame.now) (tally_at keys.old s)) }
{
    let mut c = Costed {
        cost: 0.0,
        tallies: s,
    };
    if !scans(frame) {
        return c;
    }
    c.cost = row[0];
    if is_literal(byte_at(frame, 0)) {
        return c;
    }
    if is_set(bound, byte_at(frame, 1)) {
        c.cost = row[1];
        return c;
    }
    item_costs(sheet, index, frame, row, bound, em, keys, values, c)
}
