// An eager round, and the cheapest of the atoms that are left behind it.
ghost use Rattle.cost.specs.Sheet.{frames_in};
ghost use Rattle.cost.specs.Given.{Given};
ghost use Rattle.choosing.specs.Eager.{Located};
ghost use Rattle.choosing.specs.Prices.{Priced};
ghost use Rattle.choosing.specs.Remembering.{Samples, Remembers};
ghost use Rattle.choosing.specs.Advancing.{Prepared};
ghost use Rattle.round_choice.specs.RoundChoice.{Chooses, RoundRoom};

use choosing::below::{Best, Scheduler, advance};
use choosing::choose::cheapest;
use cost::memo::Sampling;

// The state behind an eager round, and the cheapest of the atoms left.
#[derive(Clone, Copy)]
pub struct Round {
    pub state: Scheduler,
    pub best: Best,
}

// An eager round, and the choice behind it with its costs.
pub fn choose_next(
    sheet: &[u8],
    index: &[u16],
    from: &[u16],
    n: usize,
    prices: &[f64],
    d: Scheduler,
    keys: &mut [u64],
    values: &mut [f64],
    costs: &mut [u64],
    s: Sampling,
) -> Round
    requires located { Located sheet.now from.now n }
    requires prepared { Prepared sheet.now d }
    requires samples { Samples (frames_in sheet.now) s.how }
    requires remembers { Remembers (frames_in sheet.now) s.how keys.old values.old s }
    requires round_room { RoundRoom sheet.now d keys.old s }
    requires given { Given sheet.now index.now }
    requires priced { Priced sheet.now from.now n prices.now }
    ensures { Chooses sheet.now s.how d keys.old s keys.new values.new costs.new result }
{
    let state = advance(sheet, from, n, d);
    let best = cheapest(sheet, index, from, n, prices, state, keys, values, costs, s);
    Round { state, best }
}
