// The lines that tell an answer: a refused query, refused texts, the end of a run.
#![tactic(auto)]

ghost use Rattle.std.specs.Prelude.{◌≡◌, ◌+◌, ◌*◌, ◌/◌, ◌%◌, length};
ghost use Rattle.hexadecimal.specs.Digits.{hex_digit};
ghost use Rattle.answer_lines.specs.Lines.{line_of, refusal_line, run_refusal_line, end_line};

use hexadecimal::hex_digit;

// The digits of a frame, then the line's end.
fn put_line(frame: &[u8], out: &mut [u8])
    requires { length out.old ≡ 2 * length frame.now + 1 }
    ensures { out.new ≡ line_of frame.now }
{
    for (i, &b) in frame.iter().enumerate() {
        out[2 * i] = hex_digit(b / 16);
        out[2 * i + 1] = hex_digit(b);
    }
    out[2 * frame.len()] = 10;
}

// A refused query: ff number line(2).
pub fn refusal_line(number: u8, line: usize) -> [u8; 9]
    ensures { result ≡ refusal_line number line }
{
    let [high, low] = ((line % 0x1_0000) as u16).to_be_bytes();
    let frame = [0xff, number, high, low];
    let mut out = [0u8; 9];
    put_line(&frame, &mut out);
    out
}

// Refused texts of a run: ff number line(2) text.
pub fn run_refusal_line(number: u8, text: u8, line: usize) -> [u8; 11]
    ensures { result ≡ run_refusal_line number text line }
{
    let [high, low] = ((line % 0x1_0000) as u16).to_be_bytes();
    let frame = [0xff, number, high, low, text];
    let mut out = [0u8; 11];
    put_line(&frame, &mut out);
    out
}

// The end of a run: 51 0000 status tries(8) matches(4).
pub fn end_line(status: u8, tries: u64, matches: u64) -> [u8; 33]
    ensures { result ≡ end_line status tries matches }
{
    let mut frame = [0u8; 16];
    frame[0] = 0x51;
    frame[3] = status;
    frame[4..12].copy_from_slice(&tries.to_be_bytes());
    frame[12..].copy_from_slice(&((matches % 0x1_0000_0000) as u32).to_be_bytes());
    let mut out = [0u8; 33];
    put_line(&frame, &mut out);
    out
}
