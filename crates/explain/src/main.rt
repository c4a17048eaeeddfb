// Explains the plan text on standard input, each step in words. A query text is planned first, with the table in the file `table` beside it, or none
// where it is missing; it is said where its samples come from, and for each round the candidates are shown with their costs. Of a table text it is
// said how many rows it has and which of them are passed over. A refused text is explained by its number and line. The argument, a decimal number
// below 2^64, is an atom: each Join then says which rows it tries in a run that names that atom as its new one, and a last line says where no Join
// is of that atom. Any other arguments get a line of usage.
#![tactic(auto)]

mod accepted;
mod costs;
mod named;
mod planned;
mod refusals;
mod source;
mod steps;
mod table;
mod words;

use accepted::explain_plan;
use arguments::words::{number_at, word_count};
use hex_lines::reader::line_from;
use hexadecimal::line::byte_at;
use planned::explain_query;
use printing::TEXT_ROOM;
use table::explain_table;
use table_file::read_table;
use words::say;

fn explain_beside(rt: &HostRuntime, text: &[u8], named: Option<u64>) {
    let mut table = [0u8; TEXT_ROOM];
    match read_table(rt, &mut table) {
        Some(size) => explain_query(rt, text, Some(&table[..size]), named),
        None => explain_query(rt, text, None, named),
    }
}

// A text is taken for a plan or, by the frames 30 to 34, for a table by its first byte.
fn explain(rt: &HostRuntime, text: &[u8], named: Option<u64>) {
    match byte_at(line_from(text, 0), 0) {
        0x3f => explain_plan(rt, text, named),
        0x30..=0x34 => explain_table(rt, text),
        _ => explain_beside(rt, text, named),
    }
}

fn explain_input(rt: &HostRuntime, named: Option<u64>) {
    let mut text = [0u8; TEXT_ROOM];
    let n = io::read_full(0, &mut text);
    explain(rt, &text[..n], named);
}

// The atom that `count` words give, the program's name being the first.
fn atom(rt: &HostRuntime, count: usize) -> Option<u64> {
    if 2 < count { None } else { number_at(rt, 1) }
}

fn main(rt: HostRuntime) {
    let count = word_count(&rt);
    if count < 2 {
        explain_input(&rt, None);
        return;
    }
    match atom(&rt, count) {
        Some(a) => explain_input(&rt, Some(a)),
        None => say!(rt; "usage: explain [ATOM] < TEXT, ATOM in decimal, below 2^64\n"),
    }
}
