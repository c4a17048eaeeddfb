// The static library: the C functions, each by the function of `exports` that has its name and its clauses. None asks anything of its caller. A double
// travels as its bits, but for the draws, an array of doubles.
#![tactic(auto)]

ghost use Rattle.exports.specs.Answers.{selectivity_bits, settings, estimate_answer, status_of, mean_left};
ghost use Rattle.exports.specs.Plans.{packed_answer};
ghost use Rattle.exports.specs.Rounds.{packed_round};
ghost use Rattle.exports.specs.Planner.{plan as planned};
ghost use Rattle.exports.specs.Handed.{handed_if};
ghost use Rattle.exports.specs.Costs.{round_costs};
ghost use Rattle.exports.specs.Atoms.{mode_from};
ghost use Rattle.exports.specs.Replied.{TellsSome};
ghost use Rattle.exports.specs.Runs.{packed_run};
ghost use Rattle.exports.specs.Run.{tries_in, matches_in, run as run_of};
ghost use Rattle.exports.specs.SplitMix.{next_state, draw_at};
ghost use Rattle.exports.specs.Sqrt.{sqrt as sqrt_of};
ghost use Rattle.std.specs.Prelude.{◌≡◌};

// The square root, from bit pattern to bit pattern.
#[unsafe(no_mangle)]
pub extern "C" fn rimdovek_sqrt(bits: u64) -> u64
    ensures { result ≡ sqrt_of bits }
{
    exports::rimdovek_sqrt(bits)
}

// The generator's state after `state`.
#[unsafe(no_mangle)]
pub extern "C" fn rimdovek_splitmix64_state(state: u64) -> u64
    ensures { result ≡ next_state state }
{
    exports::rimdovek_splitmix64_state(state)
}

// The number drawn at `state`.
#[unsafe(no_mangle)]
pub extern "C" fn rimdovek_splitmix64_draw(state: u64) -> u64
    ensures { result ≡ draw_at state }
{
    exports::rimdovek_splitmix64_draw(state)
}

// The selectivity of a path. `fanout` counts only where `measured` holds.
#[unsafe(no_mangle)]
pub extern "C" fn rimdovek_path_selectivity(measured: bool, fanout: u64, denom: u32) -> u64
    ensures { result ≡ selectivity_bits measured fanout denom }
{
    exports::rimdovek_path_selectivity(measured, fanout, denom)
}

// The measurement from its draws: 0, and `mean` is set; 1 where the guard rejects it; 2 without draws, with more than 64, or with more
// than 256 resamples.
#[unsafe(no_mangle)]
pub extern "C" fn rimdovek_estimate_draws(
    draws: &[f64],
    k: usize,
    bootstrap: usize,
    cv: u64,
    mean: &mut u64,
) -> u8
    ensures status { result ≡ status_of (estimate_answer (settings k bootstrap cv) draws.now) }
    ensures mean { mean.new ≡ mean_left (estimate_answer (settings k bootstrap cv) draws.now) mean.old }
{
    exports::rimdovek_estimate_draws(draws, k, bootstrap, cv, mean)
}

// Plans a query text into a lent output, with a table text beside it where one is handed in.
#[unsafe(no_mangle)]
pub extern "C" fn rimdovek_plan(query: &[u8], handed: bool, table: &[u8], out: &mut [u8]) -> u64
    ensures answer { result ≡ packed_answer (planned query.now (handed_if handed table.now) out.old).answer }
    ensures output { out.new ≡ (planned query.now (handed_if handed table.now) out.old).output }
{
    exports::planning::rimdovek_plan(query, handed, table, out)
}

// The costs of round number `round` of a query, from 0, as bits in a lent array.
#[unsafe(no_mangle)]
pub extern "C" fn rimdovek_round_costs(
    query: &[u8],
    handed: bool,
    table: &[u8],
    round: usize,
    costs: &mut [u64],
) -> u64
    ensures answer { result ≡ packed_round (round_costs query.now (handed_if handed table.now) round costs.old).answer }
    ensures output { costs.new ≡ (round_costs query.now (handed_if handed table.now) round costs.old).output }
{
    exports::rounds::rimdovek_round_costs(query, handed, table, round, costs)
}

// Runs a plan over a table, with an allowance of tries and an atom named as the new one (the largest number names none), into a lent output.
// Tries and matches are left behind the references.
#[unsafe(no_mangle)]
pub extern "C" fn rimdovek_run(
    plan: &[u8],
    table: &[u8],
    allowance: u64,
    atom: u64,
    out: &mut [u8],
    tries: &mut u64,
    matches: &mut u64,
) -> u64
    ensures answer { result ≡ packed_run (run_of plan.now table.now (mode_from atom) allowance out.old).outcome }
    ensures output { out.new ≡ (run_of plan.now table.now (mode_from atom) allowance out.old).output }
    ensures tries { tries.new ≡ tries_in (run_of plan.now table.now (mode_from atom) allowance out.old).outcome }
    ensures matches { matches.new ≡ matches_in (run_of plan.now table.now (mode_from atom) allowance out.old).outcome }
{
    exports::runs::rimdovek_run(plan, table, allowance, atom, out, tries, matches)
}

// Some match, under the named atom (the largest number names none): 0 none, 1 spent, 2 a match, whose line is written where it has room; 419 bytes always suffice.
#[unsafe(no_mangle)]
pub extern "C" fn rimdovek_some_match(
    plan: &[u8],
    table: &[u8],
    allowance: u64,
    atom: u64,
    out: &mut [u8],
) -> u64
    ensures { TellsSome plan.now table.now (mode_from atom) allowance out.old out.new result }
{
    exports::some::rimdovek_some_match(plan, table, allowance, atom, out)
}
