// Writes the square root of each pattern on standard input, a line of 16 digits each, and stops at the first other line.
#![tactic(auto)]

use number_lines::{LINE_SIZE, LINES_MOST, numbers};

// kept: std's printing would rest on one function of C more than `read` and `write`: its error number.

fn print_root(bits: u64) {
    io::print_hex(1, sqrt::sqrt(bits), 16);
    io::write_all(1, b"\n");
}

fn print_roots(patterns: &[u64]) {
    for &bits in patterns {
        print_root(bits);
    }
}

fn main() {
    let mut input = io::large_buffer();
    let n = io::read_full(0, &mut input);
    let mut patterns = [0u64; LINES_MOST];
    let m = numbers(&input[..n], &mut patterns);
    print_roots(&patterns[..m]);
    if LINE_SIZE * m < n {
        io::write_all(1, b"not a line of 16 digits\n");
    }
}
