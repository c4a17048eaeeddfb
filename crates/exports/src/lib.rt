// The C functions of the static library: the planner, the runner and their numbers, for programs outside the prover. None asks anything of
// its caller. A double travels as its bits, but for the draws, an array of doubles.
#![tactic(auto)]

ghost use Rattle.std.specs.Prelude.{◌≡◌};
ghost use Rattle.bit_patterns.specs.SplitMix.{next_state, draw_at};
ghost use Rattle.sqrt.specs.Sqrt.{sqrt as sqrt_of};
ghost use Rattle.bit_patterns.specs.Answers.{selectivity_bits, settings, estimate_answer, status_of, mean_left};

pub mod below;
pub mod planning;
pub mod rounds;
pub mod runs;
pub mod some;

// The square root, from bit pattern to bit pattern.
pub fn rimdovek_sqrt(bits: u64) -> u64
    ensures { result ≡ sqrt_of bits }
{
    sqrt::sqrt(bits)
}

// The generator's state after `state`.
pub fn rimdovek_splitmix64_state(state: u64) -> u64
    ensures { result ≡ next_state state }
{
    bit_patterns::next_state(state)
}

// The number drawn at `state`.
pub fn rimdovek_splitmix64_draw(state: u64) -> u64
    ensures { result ≡ draw_at state }
{
    bit_patterns::drawn(state)
}

// The selectivity of a path. `fanout` counts only where `measured` holds.
pub fn rimdovek_path_selectivity(measured: bool, fanout: u64, denom: u32) -> u64
    ensures { result ≡ selectivity_bits measured fanout denom }
{
    bit_patterns::selectivity(measured, fanout, denom)
}

// The measurement from its draws: 0, and `mean` is set; 1 where the guard rejects it; 2 without draws, with more than 64, or with more
// than 256 resamples.
pub fn rimdovek_estimate_draws(
    draws: &[f64],
    k: usize,
    bootstrap: usize,
    cv: u64,
    mean: &mut u64,
) -> u8
    ensures status { result ≡ status_of (estimate_answer (settings k bootstrap cv) draws.now) }
    ensures mean { mean.new ≡ mean_left (estimate_answer (settings k bootstrap cv) draws.now) mean.old }
{
    let a = bit_patterns::estimate(draws, k, bootstrap, cv);
    *mean = bit_patterns::mean_left(a, *mean);
    bit_patterns::status(a)
}
