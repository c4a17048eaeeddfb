// The greedy loop: an eager round, then the cheapest atom, until none is left.
ghost use Rattle.std.specs.Prelude.{◌≡◌, false, suc, ◌≤◌, length};
ghost use Rattle.query.specs.Sheet.{frames_in};
ghost use Rattle.query.specs.Given.{Given};
ghost use Rattle.cost.specs.Choice.{rounds};
ghost use Rattle.cost.specs.Memo.{keys_most};
ghost use Rattle.round_choice.specs.Eager.{Located, sheet_atoms};
ghost use Rattle.round_choice.specs.Prices.{Priced};
ghost use Rattle.round_choice.specs.Remembering.{Samples};
ghost use Rattle.scheduling.specs.Rounds.{Rounded};

use cost::memo::Sampling;
use query::below::SamplerConfig;
use round_choice::below::{Scheduler, take_next};
use round_choice::next::choose_next;

// The atoms lowered in order, how many they are, the tallies, and the atom chosen in the last round, if one was found.
#[derive(Clone, Copy)]
pub struct Scheduled {
    pub order: [u8; 64],
    pub count: usize,
    pub tallied: usize,
    pub rejected: usize,
    pub chosen: Option<u8>,
}

fn ended(d: Scheduler, s: Sampling, chosen: Option<u8>) -> Scheduled
    ensures { result ≡ record { order = d.order; count = d.count; tallied = s.tallied; rejected = s.rejected; chosen = chosen } }
{
    let order = d.order;
    Scheduled {
        order,
        count: d.count,
        tallied: s.tallied,
        rejected: s.rejected,
        chosen,
    }
}

// The order in which the atoms are lowered, by an eager round and the cheapest atom in turn, until no atom is left to choose, or behind
// `last` rounds and one more; the costs of the last one.
pub fn schedule(
    sheet: &[u8],
    index: &[u16],
    from: &[u16],
    n: usize,
    prices: &[f64],
    how: Option<SamplerConfig>,
    keys: &mut [u64],
    values: &mut [f64],
    last: usize,
    costs: &mut [u64],
) -> Scheduled
    requires located { Located sheet.now from.now n }
    requires samples { Samples (frames_in sheet.now) how }
    requires values_len { (length values.old ≡ length keys.old) × (length keys.old ≤ keys_most) }
    requires last_in_bounds { length (rounds (frames_in sheet.now) (sheet_atoms sheet.now) (suc last)).memory.tally.memo ≤ length keys.old }
    requires given { Given sheet.now index.now }
    requires priced { Priced sheet.now from.now n prices.now }
    ensures { Rounded sheet.now last costs.new result }
{
    let mut d = Scheduler {
        used: [false; 64],
        bound: [false; 64],
        before: [false; 64],
        emitters: [0u32; 64],
        order: [0u8; 64],
        count: 0,
    };
    let mut s = Sampling {
        how,
        count: 0,
        tallied: 0,
        rejected: 0,
    };
    let mut left = last;
    // kept: a `for` over the rounds would need an answer behind its end, which is never reached
    loop {
        let r = choose_next(sheet, index, from, n, prices, d, keys, values, costs, s);
        let e = r.state;
        s = r.best.tallies;
        let Some(b) = r.best.choice else {
            return ended(e, s, None);
        };
        d = take_next(sheet, from, n, b.who, e);
        if left == 0 {
            return ended(d, s, Some(b.who));
        }
        left -= 1;
    }
}
