// Writes the next five draws of each state on standard input, a line of 16 digits each, and stops at the first other line.
#![tactic(auto)]

use number_lines::{LINE_SIZE, LINES_MOST, numbers};

// kept: std's printing would rest on one function of C more than `read` and `write`: its error number.

// Five draws stand on a line.
fn print_draw(draw: u64, i: u64) {
    io::print_hex(1, draw, 16);
    if i < 4 {
        io::write_all(1, b" ");
    } else {
        io::write_all(1, b"\n");
    }
}

fn print_five(state: u64) {
    let mut state = state;
    for i in 0..5 {
        let drawn = splitmix::splitmix64(state);
        print_draw(drawn.draw, i);
        state = drawn.state;
    }
}

fn print_draws(states: &[u64]) {
    for &state in states {
        print_five(state);
    }
}

fn main() {
    let mut input = io::large_buffer();
    let n = io::read_full(0, &mut input);
    let mut states = [0u64; LINES_MOST];
    let m = numbers(&input[..n], &mut states);
    print_draws(&states[..m]);
    if LINE_SIZE * m < n {
        io::write_all(1, b"not a line of 16 digits\n");
    }
}
