// Runs the plan text on standard input over the table in the file `table` (an empty one where it is missing). Two arguments may be given, decimal
// numbers below 2^64: the allowance, 1,000,000 without one, and the atom that the run names as its new one, none without one. Any other arguments
// get a line of usage. Prints the match lines, then the line 51 0000 status(1) tries(8) matches(4) with status 00 done, 01 spent, 02 full; for
// refused texts the line ff number line(2) text, text 01 the plan, 02 the table.
#![tactic(auto)]

use arguments::words::{number_at, word_count};
use entries::run::run;
use printing::{TEXT_ROOM, print_run};
use table_file::read_table;

// What cannot be written is left out.
fn say_usage(rt: &HostRuntime) {
    let _ = println!(rt; "usage: run [ALLOWANCE [ATOM]] < PLAN, both in decimal, below 2^64");
}

// The allowance that `count` words give, the program's name being the first.
fn allowance(rt: &HostRuntime, count: usize) -> Option<u64> {
    match count {
        0..=1 => Some(1_000_000),
        2..=3 => number_at(rt, 1),
        _ => None,
    }
}

fn run_over(plan: &[u8], table: &[u8], allowance: u64, named: Option<u64>) {
    let mut out = io::large_buffer();
    let answer = run(plan, table, allowance, named, &mut out);
    print_run(answer, &out);
}

fn run_with(rt: &HostRuntime, allowance: u64, named: Option<u64>) {
    let mut plan = [0u8; TEXT_ROOM];
    let n = io::read_full(0, &mut plan);
    let mut table = [0u8; TEXT_ROOM];
    let size = read_table(rt, &mut table).unwrap_or(0);
    run_over(&plan[..n], &table[..size], allowance, named);
}

// Runs with the atom that a third word names.
fn run_named(rt: &HostRuntime, allowance: u64, count: usize) {
    if count < 3 {
        run_with(rt, allowance, None);
        return;
    }
    match number_at(rt, 2) {
        Some(atom) => run_with(rt, allowance, Some(atom)),
        None => say_usage(rt),
    }
}

fn main(rt: HostRuntime) {
    let count = word_count(&rt);
    match allowance(&rt, count) {
        Some(a) => run_named(&rt, a, count),
        None => say_usage(&rt),
    }
}
