// The costs of a round for programs outside the prover.
ghost use Rattle.std.specs.Prelude.{◌≡◌};
ghost use Rattle.round_costs.specs.Costs.{round_answer, round_costs};
ghost use Rattle.round_costs.specs.Handed.{handed_if};
ghost use Rattle.exports.specs.Rounds.{packed_round};

use packing::{choice, refusal};
use round_costs::below::{Refusal, table_if};
use round_costs::rounds::round_costs;

// The answer as one number.
fn packed(r: Result<Option<u8>, Refusal>) -> u64
    ensures { result ≡ packed_round (round_answer r) }
{
    match r {
        Ok(Some(i)) => choice(true, i),
        Ok(None) => choice(false, 0),
        Err(f) => refusal(f.number, f.text_number(), f.line),
    }
}

// The costs of round number `round` of a query, from 0, as bits in a lent array.
pub fn rimdovek_round_costs(
    query: &[u8],
    handed: bool,
    table: &[u8],
    round: usize,
    costs: &mut [u64],
) -> u64
    ensures answer { result ≡ packed_round (round_costs query.now (handed_if handed table.now) round costs.old).answer }
    ensures output { costs.new ≡ (round_costs query.now (handed_if handed table.now) round costs.old).output }
{
    packed(round_costs(query, table_if(handed, table), round, costs))
}
