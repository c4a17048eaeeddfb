// The planner for programs outside the prover: one call from query text to plan text.
ghost use Rattle.std.specs.Prelude.{◌≡◌};
ghost use Rattle.round_costs.specs.Planner.{plan as planned};
ghost use Rattle.round_costs.specs.Handed.{handed_if};
ghost use Rattle.exports.specs.Plans.{packed_answer, packed_planned};

use packing::{counts, refusal};
use planner::entry::plan;
use round_costs::below::{Refusal, Written, table_if};

// The answer as one number.
fn packed(p: Result<Written, Refusal>) -> u64
    ensures { result ≡ packed_planned p }
{
    match p {
        Ok(w) => counts(w.bytes, w.steps, w.tallied, w.rejected),
        Err(f) => refusal(f.number, f.text_number(), f.line),
    }
}

// Plans a query text into a lent output, with a table text beside it where one is handed in.
pub fn rimdovek_plan(query: &[u8], handed: bool, table: &[u8], out: &mut [u8]) -> u64
    ensures answer { result ≡ packed_answer (planned query.now (handed_if handed table.now) out.old).answer }
    ensures output { out.new ≡ (planned query.now (handed_if handed table.now) out.old).output }
{
    packed(plan(query, table_if(handed, table), out))
}
