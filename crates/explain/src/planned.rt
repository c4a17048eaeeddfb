// A query text, planned, in words: where its samples come from, its rounds, then its plan.
use super::accepted::explain_plan;
use super::costs::say_cost;
use super::refusals::say_refusal;
use super::source::say_source;
use super::words::say;
use frame_tests::tests::Text;
use planner::entry::plan;
use printing::below::{PLAN_MOST, Refusal};
use round_costs::rounds::round_costs;

// A candidate; all ones stand for an atom that is none.
fn say_candidate(rt: &HostRuntime, atom: usize, bits: u64) {
    if bits == u64::MAX {
        return;
    }
    say!(rt; "  atom {atom} costs ");
    say_cost(rt, bits);
    say!(rt; "\n");
}

fn say_candidates(rt: &HostRuntime, costs: &[u64]) {
    for (atom, &bits) in costs.iter().enumerate() {
        say_candidate(rt, atom, bits);
    }
}

// A round of the text: its candidates with their costs, and the atom chosen. Whether there is such a round.
fn say_round(rt: &HostRuntime, text: &[u8], table: Option<&[u8]>, round: usize) -> bool {
    let mut costs = [0u64; 64];
    match round_costs(text, table, round, &mut costs) {
        Ok(Some(atom)) => {
            say!(rt; "round {round} takes atom {atom} of\n");
            say_candidates(rt, &costs);
            true
        }
        Ok(None) | Err(_) => false,
    }
}

// The rounds of a text: at most one an atom.
fn say_rounds(rt: &HostRuntime, text: &[u8], table: Option<&[u8]>) {
    for round in 0..64 {
        if !say_round(rt, text, table, round) {
            return;
        }
    }
}

fn say_plan(
    rt: &HostRuntime,
    text: &[u8],
    table: Option<&[u8]>,
    out: &[u8],
    n: usize,
    named: Option<u64>,
) {
    if n <= out.len() {
        let lines = &out[..n];
        say_source(rt, text, table);
        say_rounds(rt, text, table);
        explain_plan(rt, lines, named);
    }
}

fn say_back(rt: &HostRuntime, f: Refusal) {
    let text = match f.text {
        Text::Query => "query",
        Text::Plan => "plan",
        Text::Table => "table",
    };
    say_refusal(rt, f.number, f.line, text);
}

// A query text, with a table text beside it where one is found.
pub fn explain_query(rt: &HostRuntime, text: &[u8], table: Option<&[u8]>, named: Option<u64>) {
    let mut out = [0u8; PLAN_MOST];
    match plan(text, table, &mut out) {
        Ok(written) => say_plan(rt, text, table, &out, written.bytes, named),
        Err(f) => say_back(rt, f),
    }
}
