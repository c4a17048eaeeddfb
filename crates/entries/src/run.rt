// The run of a plan over a table.
ghost use Rattle.std.specs.Prelude.{◌≡◌};
ghost use Rattle.modes.specs.Modes.{mode_of};
ghost use Rattle.bindings.specs.Run.{run as run_of};
ghost use Rattle.execution.specs.Halts.{status_number};
ghost use Rattle.entries.specs.Outcomes.{status_of, status_by, outcome_result};

use execution::below::Refusal;
use execution::texts::run_texts;

#[derive(Clone, Copy, PartialEq, Eq)]
pub enum Status {
    Done,
    Spent,
    Full,
}

// How a run ended; its tries, its matches and the bytes written.
#[derive(Clone, Copy, PartialEq, Eq)]
pub struct Ran {
    pub status: Status,
    pub tries: u64,
    pub matches: u64,
    pub written: usize,
}

// A run's status by its number.
pub fn status_of(number: u8) -> Status
    ensures { result ≡ status_by number }
{
    match number {
        0 => Status::Done,
        1 => Status::Spent,
        _ => Status::Full,
    }
}

// A status as a number: 0 done, 1 spent, 2 full.
pub fn status_number(s: Status) -> u8
    ensures { result ≡ status_number (status_of s) }
{
    match s {
        Status::Done => 0,
        Status::Spent => 1,
        Status::Full => 2,
    }
}

// Runs a plan over a table, with an allowance of tries and an atom named as the new one, or none, into a lent output.
pub fn run(
    plan: &[u8],
    table: &[u8],
    allowance: u64,
    named: Option<u64>,
    out: &mut [u8],
) -> Result<Ran, Refusal>
    ensures { outcome_result result out.new ≡ run_of plan.now table.now (mode_of named) allowance out.old }
{
    let handed = run_texts(plan, table, allowance, named, out)?;
    let t = handed.tally;
    Ok(Ran {
        status: status_of(t.status),
        tries: t.tries,
        matches: t.matches,
        written: t.written,
    })
}
