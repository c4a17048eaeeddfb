// The answer of a run, and its counts.
ghost use Rattle.std.specs.Prelude.{◌≡◌};
ghost use Rattle.bindings.specs.Run.{tries_in, matches_in};
ghost use Rattle.entries.specs.Outcomes.{outcome_of};
ghost use Rattle.run_answers.specs.Runs.{packed_run};

use entries::below::Refusal;
use entries::run::{Ran, status_number};
use packing::{refusal, written};

// The answer as one number.
pub fn packed(r: Result<Ran, Refusal>) -> u64
    ensures { result ≡ packed_run (outcome_of r) }
{
    match r {
        Ok(ran) => written(status_number(ran.status), ran.written),
        Err(f) => refusal(f.number, f.text_number(), f.line),
    }
}

pub fn tries_in(r: Result<Ran, Refusal>) -> u64
    ensures { result ≡ tries_in (outcome_of r) }
{
    match r {
        Ok(ran) => ran.tries,
        Err(_) => 0,
    }
}

pub fn matches_in(r: Result<Ran, Refusal>) -> u64
    ensures { result ≡ matches_in (outcome_of r) }
{
    match r {
        Ok(ran) => ran.matches,
        Err(_) => 0,
    }
}
