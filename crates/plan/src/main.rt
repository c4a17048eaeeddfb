// Plans the query text on standard input, with the table in the file `table` beside it, or none where it is missing: prints the plan, or for a
// refused query or table the line ff number line(2).
#![tactic(auto)]

use planner::entry::plan;
use printing::below::PLAN_MOST;
use printing::{TEXT_ROOM, print_planned};
use table_file::read_table;

fn plan_beside(text: &[u8], table: Option<&[u8]>) {
    let mut out = [0u8; PLAN_MOST];
    let answer = plan(text, table, &mut out);
    print_planned(answer, &out);
}

fn main(rt: HostRuntime) {
    let mut text = [0u8; TEXT_ROOM];
    let n = io::read_full(0, &mut text);
    let mut table = [0u8; TEXT_ROOM];
    match read_table(&rt, &mut table) {
        Some(size) => plan_beside(&text[..n], Some(&table[..size])),
        None => plan_beside(&text[..n], None),
    }
}
