// Whether an atom is a candidate, and its cost against the best so far.
ghost use Rattle.std.specs.Prelude.{◌≡◌, ◌<◌};
ghost use Rattle.cost.specs.QueryAtoms.{atom_of_frame};
ghost use Rattle.cost.specs.Cheapest.{is_candidate};
ghost use Rattle.lowering.specs.AtomLines.{AtomLine};
ghost use Rattle.bidding.specs.Bidding.{better_of};

use binding::sets::is_set;
use cost::memo::Sampling;
use item_pricing::items::Costed;
use lowering::atom::scans;

// An atom, and its cost.
#[derive(Clone, Copy)]
pub struct Choice {
    pub who: u8,
    pub price: f64,
}

// The cheapest atom so far, if one was found, and the tallies behind it.
#[derive(Clone, Copy)]
pub struct Best {
    pub choice: Option<Choice>,
    pub tallies: Sampling,
}

// A cost replaces the best only where it is below it.
pub fn better(i: u8, c: Costed, b: Best) -> Best
    ensures { result ≡ better_of i c b }
{
    let here = Choice {
        who: i,
        price: c.cost,
    };
    let choice = match b.choice {
        Some(d) => { if c.cost < d.price { here } else { d } }
        None => here,
    };
    Best {
        choice: Some(choice),
        tallies: c.tallies,
    }
}

// An atom is a candidate where it is not used yet and scans.
pub fn is_candidate(frame: &[u8], i: u8, used: &[bool]) -> bool
    requires { AtomLine frame.now }
    ensures { result ≡ is_candidate used.now i (atom_of_frame frame.now) }
{
    !is_set(used, i) && scans(frame)
}
