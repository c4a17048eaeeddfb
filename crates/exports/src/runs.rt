// The runner for programs outside the prover: one call from plan text and table text to match lines.
ghost use Rattle.std.specs.Prelude.{◌≡◌};
ghost use Rattle.run_answers.specs.Run.{tries_in, matches_in, run as run_of};
ghost use Rattle.run_answers.specs.Atoms.{mode_from};
ghost use Rattle.run_answers.specs.Runs.{packed_run};

use run_answers::atoms::delta_atom;
use run_answers::below::run;
use run_answers::runs::{matches_in, packed, tries_in};

// Runs a plan over a table, with an allowance of tries and an atom named as the new one (the largest number names none), into a lent output.
// Tries and matches are left behind the references.
pub fn rimdovek_run(
    plan: &[u8],
    table: &[u8],
    allowance: u64,
    atom: u64,
    out: &mut [u8],
    tries: &mut u64,
    matches: &mut u64,
) -> u64
    ensures answer { result ≡ packed_run (run_of plan.now table.now (mode_from atom) allowance out.old).outcome }
    ensures output { out.new ≡ (run_of plan.now table.now (mode_from atom) allowance out.old).output }
    ensures tries { tries.new ≡ tries_in (run_of plan.now table.now (mode_from atom) allowance out.old).outcome }
    ensures matches { matches.new ≡ matches_in (run_of plan.now table.now (mode_from atom) allowance out.old).outcome }
{
    let o = run(plan, table, allowance, delta_atom(atom), out);
    *tries = tries_in(o);
    *matches = matches_in(o);
    packed(o)
}
