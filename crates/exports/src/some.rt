// The runner's second entry for programs outside the prover: some match of a plan over a table.
ghost use Rattle.run_answers.specs.Atoms.{mode_from};
ghost use Rattle.run_answers.specs.Replied.{TellsSome};

use run_answers::atoms::delta_atom;
use run_answers::below::some_match;
use run_answers::some::told;

// Some match, under the named atom (the largest number names none): 0 none, 1 spent, 2 a match, whose line is written where it has room; 419 bytes always suffice.
pub fn rimdovek_some_match(
    plan: &[u8],
    table: &[u8],
    allowance: u64,
    atom: u64,
    out: &mut [u8],
) -> u64
    ensures { TellsSome plan.now table.now (mode_from atom) allowance out.old out.new result }
{
    told(
        some_match(plan, table, allowance, delta_atom(atom)),
        plan,
        out,
    )
}
