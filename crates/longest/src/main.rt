// Runs the plan with the most Joins that a text can hold, 2,641, over a table of one row, and prints what the program `run` prints: so deep does
// the recursion on the steps that remain go, and so much stack does it take.
#![tactic(auto)]

ghost use Rattle.std.specs.Prelude.{◌≤◌, length};

use entries::run::run;
use hexadecimal::hex_digit;
use printing::print_run;

// Joins by operator alone, which bind a variable each and are the shortest, and those that name a bound one by ByRepr.
const BINDING: u8 = 64;

const NAMING: usize = 2577;

const PLAN: usize = 65534;

// Puts a line behind the first `at` bytes of a text, and answers where it ends: as much of it as has room.
fn put(text: &mut [u8], at: usize, line: &[u8]) -> usize
    requires { at ≤ length text.old }
    ensures { result ≤ length text.new }
{
    let n = line.len().min(text.len() - at);
    text[at..at + n].copy_from_slice(&line[..n]);
    at + n
}

fn put_binding(plan: &mut [u8], from: usize) -> usize
    requires { from ≤ length plan.old }
    ensures { result ≤ length plan.new }
{
    let mut at = from;
    for v in 0..BINDING {
        let digits = [hex_digit(v / 16), hex_digit(v)];
        at = put(plan, at, b"40");
        at = put(plan, at, &digits);
        at = put(plan, at, b"000100010000\n");
    }
    at
}

fn put_plan(plan: &mut [u8]) -> usize
    ensures { result ≤ length plan.new }
{
    let header = put(plan, 0, b"3f4000000a5100000000\n");
    let mut at = put_binding(plan, header);
    for _ in 0..NAMING {
        at = put(plan, at, b"400000020001000002000000\n");
    }
    at
}

fn main() {
    let mut plan = [0u8; PLAN];
    let n = put_plan(&mut plan);
    let mut out = [0u8; 259];
    let answer = run(&plan[..n], b"3000050100\n", 1_000_000, None, &mut out);
    print_run(answer, &out);
}
