// Some match of a plan over a table.
ghost use Rattle.modes.specs.Modes.{mode_of};
ghost use Rattle.bindings.specs.Run.{Replies};
ghost use Rattle.entries.specs.Outcomes.{reply_of};

use crate::run::{Status, status_of};
use bindings::env::Env;
use execution::below::Refusal;
use execution::texts::run_texts;

// The reply of the second entry: no match, an allowance spent before one, or the bindings of one.
#[derive(Clone, Copy)]
pub enum Reply {
    None,
    Spent,
    Match(Env),
}

// The first match that the run finds, none, or spent. With no room for a line the run is full at its first match.
pub fn some_match(
    plan: &[u8],
    table: &[u8],
    allowance: u64,
    named: Option<u64>,
) -> Result<Reply, Refusal>
    ensures { Replies plan.now table.now (mode_of named) allowance (reply_of plan.now result) }
{
    let mut out = [0u8; 1];
    let handed = run_texts(plan, table, allowance, named, &mut out)?;
    match status_of(handed.tally.status) {
        Status::Done => Ok(Reply::None),
        Status::Spent => Ok(Reply::Spent),
        Status::Full => Ok(Reply::Match(handed.env)),
    }
}
