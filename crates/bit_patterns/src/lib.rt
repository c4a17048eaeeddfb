// The numbers of the C functions: doubles go in and come out as their bits.
#![tactic(auto)]

ghost use Rattle.std.specs.Prelude.{◌≡◌};
ghost use Rattle.splitmix.specs.SplitMix.{next_state, draw_at};
ghost use Rattle.bit_patterns.specs.Answers.{fan_out, selectivity_bits, settings, told, estimate_answer, status_of, mean_left};

use measure::SamplerConfig;

// No measurement is made.
#[derive(Clone, Copy)]
pub struct Refused;

// The generator's state after `state`.
pub fn next_state(state: u64) -> u64
    ensures { result ≡ next_state state }
{
    splitmix::splitmix64(state).state
}

// The number drawn at `state`.
pub fn drawn(state: u64) -> u64
    ensures { result ≡ draw_at state }
{
    splitmix::splitmix64(state).draw
}

fn fan_out(measured: bool, bits: u64) -> Option<f64>
    ensures { result ≡ fan_out measured bits }
{
    if measured {
        Some(sqrt::of_bits(bits))
    } else {
        None
    }
}

// The selectivity of a path. `fanout` counts only where `measured` holds.
pub fn selectivity(measured: bool, fanout: u64, denom: u32) -> u64
    ensures { result ≡ selectivity_bits measured fanout denom }
{
    sqrt::bits_of(measure::path_selectivity(fan_out(measured, fanout), denom))
}

// A mean by its bits; none that the guard rejects.
fn tell(e: Option<f64>) -> Option<u64>
    ensures { result ≡ told e }
{
    match e {
        Some(m) => Some(sqrt::bits_of(m)),
        None => None,
    }
}

fn measured_answer(draws: &[f64], cfg: SamplerConfig) -> Result<Option<u64>, Refused>
    ensures { result ≡ estimate_answer cfg draws.now }
{
    if draws.is_empty() || draws.len() > 64 || cfg.bootstrap > 256 {
        return Err(Refused);
    }
    Ok(tell(measure::estimate_draws(draws, cfg)))
}

// The measurement from its draws, none where the guard rejects it; refused without draws, with more than 64, or with more than 256 resamples.
pub fn estimate(draws: &[f64], k: usize, bootstrap: usize, cv: u64) -> Result<Option<u64>, Refused>
    ensures { result ≡ estimate_answer (settings k bootstrap cv) draws.now }
{
    let cfg = SamplerConfig {
        k,
        bootstrap,
        cv_threshold: sqrt::of_bits(cv),
    };
    measured_answer(draws, cfg)
}

// An answer's number.
pub fn status(a: Result<Option<u64>, Refused>) -> u8
    ensures { result ≡ status_of a }
{
    match a {
        Ok(Some(_)) => 0,
        Ok(None) => 1,
        Err(_) => 2,
    }
}

// What is left where the mean goes.
pub fn mean_left(a: Result<Option<u64>, Refused>, before: u64) -> u64
    ensures { result ≡ mean_left a before }
{
    match a {
        Ok(Some(m)) => m,
        _ => before,
    }
}
