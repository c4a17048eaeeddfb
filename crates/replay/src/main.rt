// Replays cases. A case is a line of standard input: two digits say what it is, and two more stand for each byte of its text. 00 a query, 01 a
// plan, 02 a table to be read: the answer is `accepted` with lines and those counted, or `refused` with number and line. 03 a query to be
// planned: the answer is the plan, or the line ff number line(2). 04 a run: allowance(8) room(4) length(4), a plan of that length and a table; 05 a
// run that names an atom: allowance(8) atom(8), the rest as before; 06 a query with a table beside it: length(4), a query of that length and a
// table, answered as 03 is. The answer of a run is what the program `run` prints, how many bytes behind the match
// lines kept their value, and what the second entry answers as one number, with the line of its match.
#![tactic(auto)]

ghost use Rattle.std.specs.Prelude.{◌≡◌, ◌+◌, ◌≤◌, length, take};
ghost use Rattle.hexadecimal.specs.Digits.{bytes_of};

use entries::run::run;
use exports::below::plan;
use exports::some::rimdovek_some_match;
use first_reading::first::{Fault, Lines};
use frame_tests::tests::Text;
use printing::below::PLAN_MOST;
use printing::{print_planned, print_run};
use reading::second::read_text;
use run_answers::atoms::{NO_ATOM, delta_atom};

// kept: std's printing would hand the runtime through thirteen functions that do nothing else with it.
fn print_two(word: &[u8], a: usize, b: usize) {
    io::write_all(1, word);
    io::print_decimal(1, a as u64);
    io::write_all(1, b" ");
    io::print_decimal(1, b as u64);
    io::write_all(1, b"\n");
}

fn print_answer(answer: Result<Lines, Fault>) {
    match answer {
        Ok(lines) => print_two(b"accepted ", lines.count, lines.counted),
        Err(fault) => print_two(b"refused ", usize::from(fault.number), fault.line),
    }
}

fn text_of(b: u8) -> Text {
    match b {
        0 => Text::Query,
        1 => Text::Plan,
        _ => Text::Table,
    }
}

// Puts the bytes of a line of digits at the start of `text`, and answers how many fit.
fn decode(line: &[u8], text: &mut [u8]) -> usize
    ensures upper_bound { result ≤ length text.new }
    ensures text_after { take result text.new ≡ take result (bytes_of line.now) }
{
    let n = text.len().min(line.len() / 2);
    for i in 0..n {
        text[i] = hexadecimal::line::byte_at(line, i);
    }
    n
}

fn plan_case(text: &[u8], table: Option<&[u8]>) {
    let mut out = [0u8; PLAN_MOST];
    let answer = plan(text, table, &mut out);
    print_planned(answer, &out);
}

// A query with a table beside it: length(4), the query of that length, and the table.
fn plan_beside(case: &[u8], text: &mut [u8], other: &mut [u8]) {
    let mut number = [0u8; 4];
    let _ = decode(case, &mut number);
    let cut = 8 + 2 * (hexadecimal::word_at(&number, 0) as usize);
    if case.len() < cut || cut < 8 {
        return;
    }
    let n = decode(&case[8..cut], text);
    let m = decode(&case[cut..], other);
    plan_case(&text[..n], Some(&other[..m]));
}

// How many bytes at the end of an output are as they were.
fn kept(out: &[u8]) -> usize {
    out.iter().rev().take_while(|b| **b == 0xaa).count()
}

fn run_into(plan: &[u8], table: &[u8], allowance: u64, atom: u64, out: &mut [u8]) {
    let answer = run(plan, table, allowance, delta_atom(atom), out);
    print_run(answer, out);
    io::print_decimal(1, kept(out) as u64);
    io::write_all(1, b"\n");
}

fn some_case(plan: &[u8], table: &[u8], allowance: u64, atom: u64) {
    // A match's line has at most 419 bytes.
    let mut out = [0u8; 419];
    let answer = rimdovek_some_match(plan, table, allowance, atom, &mut out);
    io::print_decimal(1, answer);
    io::write_all(1, b"\n");
    if answer == 2 {
        io::write_all(1, hex_lines::reader::line_from(&out, 0));
        io::write_all(1, b"\n");
    }
}

fn run_texts(plan: &[u8], table: &[u8], allowance: u64, atom: u64, room: usize) {
    // Room that no line writes: each byte is aa.
    let mut out = [0xaau8; 65536];
    if room <= 65536 {
        run_into(plan, table, allowance, atom, &mut out[..room]);
        some_case(plan, table, allowance, atom);
    }
}

// The rest of a run: room(4) length(4), its plan and its table.
fn run_rest(case: &[u8], allowance: u64, atom: u64, text: &mut [u8], other: &mut [u8]) {
    let mut numbers = [0u8; 8];
    let _ = decode(case, &mut numbers);
    let room = hexadecimal::word_at(&numbers, 0) as usize;
    let cut = 16 + 2 * (hexadecimal::word_at(&numbers, 4) as usize);
    if case.len() < cut {
        return;
    }
    let n = decode(&case[16..cut], text);
    let m = decode(&case[cut..], other);
    run_texts(&text[..n], &other[..m], allowance, atom, room);
}

// The number of 8 bytes that a line of digits begins with.
fn long_of(line: &[u8]) -> u64 {
    let mut number = [0u8; 8];
    let _ = decode(line, &mut number);
    hexadecimal::long_at(&number, 0)
}

// A run, of kind 04 or 05: its allowance, the atom that it names, and the rest.
fn run_numbers(kind: u8, case: &[u8], text: &mut [u8], other: &mut [u8]) {
    if case.len() < 32 {
        return;
    }
    let allowance = long_of(case);
    let rest = &case[16..];
    if kind == 4 {
        run_rest(rest, allowance, NO_ATOM, text, other);
    } else {
        run_rest(&case[32..], allowance, long_of(rest), text, other);
    }
}

fn two_texts(kind: u8, case: &[u8], text: &mut [u8], other: &mut [u8]) {
    if kind == 6 {
        plan_beside(case, text, other);
    } else {
        run_numbers(kind, case, text, other);
    }
}

fn run_case(line: &[u8], text: &mut [u8]) {
    if line.len() < 2 {
        return;
    }
    let kind = hexadecimal::line::byte_at(line, 0);
    if 4 <= kind {
        let mut other = [0u8; 70000];
        two_texts(kind, &line[2..], text, &mut other);
        return;
    }
    let n = decode(&line[2..], text);
    if kind == 3 {
        plan_case(&text[..n], None);
    } else {
        print_answer(read_text(text_of(kind), &text[..n]));
    }
}

// One byte more of standard input: it is kept in `line`, of which n are there, or ends the case.
fn take_byte(b: u8, line: &mut [u8], text: &mut [u8], n: usize) -> usize
    requires { n ≤ length line.old }
    ensures { result ≤ length line.new }
{
    if b == b'\n' {
        run_case(&line[..n], text);
        0
    } else if n < line.len() {
        line[n] = b;
        n + 1
    } else {
        n
    }
}

fn take_piece(piece: &[u8], line: &mut [u8], text: &mut [u8], n: usize) -> usize
    requires { n ≤ length line.old }
    ensures { result ≤ length line.new }
{
    let mut kept = n;
    for &b in piece {
        kept = take_byte(b, line, text, kept);
    }
    kept
}

// A piece more of standard input, and how many bytes of a line are kept behind it; none where the input has ended.
fn read_piece(line: &mut [u8], text: &mut [u8], n: usize) -> Option<usize> {
    let mut piece = io::buffer();
    let got = io::read_full(0, &mut piece);
    if got == 0 || line.len() < n {
        return None;
    }
    Some(take_piece(&piece[..got], line, text, n))
}

// A proved loop has to end, and nothing says that the input does: the loop counts its turns.
fn run_all(line: &mut [u8], text: &mut [u8]) {
    let mut kept: usize = 0;
    for _ in 0..u64::MAX {
        let Some(n) = read_piece(line, text, kept) else {
            return;
        };
        kept = n;
    }
}

fn main() {
    // Room for the digits of a case, and for its bytes.
    let mut line = [0u8; 140000];
    let mut text = [0u8; 70000];
    run_all(&mut line, &mut text);
}
