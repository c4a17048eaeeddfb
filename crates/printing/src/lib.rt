// What the programs share: room for a text, and answers on standard output.
#![tactic(auto)]

pub mod below;

use answer_lines::{end_line, refusal_line, run_refusal_line};
use entries::run::{Ran, status_number};
use fitting::below::Refusal;
use fitting::fit::Written;

// Room for a text: one byte more than it may have, so that a longer text is seen to be too long.
pub const TEXT_ROOM: usize = 65537;

// kept: an output is bytes and no text, so that std's printing would hand the runtime to each of these functions and say no more.

// A refused query, or table beside it: the line ff number line(2).
pub fn print_refusal(number: u8, line: usize) {
    let out = refusal_line(number, line);
    io::write_all(1, &out);
}

// The first n bytes of an output.
pub fn print_written(out: &[u8], n: usize) {
    if n <= out.len() {
        io::write_all(1, &out[..n]);
    }
}

pub fn print_planned(answer: Result<Written, Refusal>, out: &[u8]) {
    match answer {
        Ok(written) => print_written(out, written.bytes),
        Err(f) => print_refusal(f.number, f.line),
    }
}

// The end of a run: the line 51 0000 status(1) tries(8) matches(4).
fn print_end(status: u8, tries: u64, matches: u64) {
    let out = end_line(status, tries, matches);
    io::write_all(1, &out);
}

// Refused texts: the line ff number line(2) text.
fn print_run_refusal(number: u8, text: u8, line: usize) {
    let out = run_refusal_line(number, text, line);
    io::write_all(1, &out);
}

// The match lines, and the end of the run.
fn print_ran(out: &[u8], status: u8, tries: u64, matches: u64, written: usize) {
    print_written(out, written);
    print_end(status, tries, matches);
}

pub fn print_run(answer: Result<Ran, Refusal>, out: &[u8]) {
    match answer {
        Ok(ran) => print_ran(
            out,
            status_number(ran.status),
            ran.tries,
            ran.matches,
            ran.written,
        ),
        Err(f) => print_run_refusal(f.number, f.text_number(), f.line),
    }
}
