// Lines of one number each, for the programs that run vectors: 16 hexadecimal digits and byte 0a.
#![tactic(auto)]

ghost use Rattle.std.specs.Prelude.{◌≡◌, ◌≤◌, length, take};
ghost use Rattle.number_lines.specs.Numbers.{number_of, numbers_of};

use hex_lines::decode::decode_line;
use hexadecimal::long_at;

// The bytes of a line, and as many lines as 65,536 bytes hold.
pub const LINE_SIZE: usize = 17;

pub const LINES_MOST: usize = 3855;

// The number that a text of one line gives.
fn number(line: &[u8]) -> Option<u64>
    requires { length line.now ≡ 17 }
    ensures { result ≡ number_of line.now }
{
    let mut frame = [0u8; 8];
    let Some(e) = decode_line(line, 0, &mut frame, 0) else {
        return None;
    };
    if e != 16 {
        return None;
    }
    Some(long_at(&frame, 0))
}

// The numbers of a text's lines up to the first other line, as many as have room in the array; how many.
pub fn numbers(text: &[u8], out: &mut [u64]) -> usize
    ensures upper_bound { result ≤ length out.new }
    ensures out_after { take result out.new ≡ numbers_of (length out.old) text.now }
{
    for n in 0..out.len() {
        let at = LINE_SIZE * n;
        if text.len() - at < LINE_SIZE {
            return n;
        }
        let Some(v) = number(&text[at..at + LINE_SIZE]) else {
            return n;
        };
        out[n] = v;
    }
    out.len()
}
