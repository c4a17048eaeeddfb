// Where the first reading stands, a line at a time.
ghost use Rattle.std.specs.Prelude.{◌≡◌, ◌+◌, length};
ghost use Rattle.line_steps.specs.Steps.{at_start, ended_at, after_frame, after_line, Few, LineRoom};

use frame_tests::below::byte_at;
use frame_tests::tests::{Text, counted, frame_fault};

// Where the first reading stands: its places in the text and on the sheet, how many lines are passed and how many of them counted, where it
// ends, and the test that the last line failed, or 0.
#[derive(Clone, Copy)]
pub struct Stand {
    pub at: usize,
    pub to: usize,
    pub n: usize,
    pub c: usize,
    pub end: usize,
    pub fault: u8,
}

pub fn at_start(size: usize) -> Stand
    ensures { result ≡ at_start size }
{
    Stand {
        at: 0,
        to: 0,
        n: 0,
        c: 0,
        end: size,
        fault: 0,
    }
}

// The line up to `next` fails the test k: the reading ends behind it.
fn ended_at(s: Stand, next: usize, k: u8) -> Stand
    ensures { result ≡ ended_at s next k }
{
    Stand {
        at: next,
        end: next,
        fault: k,
        ..s
    }
}

// The frame of the line up to `next` is tested.
fn after_frame(t: Text, frame: &[u8], s: Stand, next: usize) -> Stand
    requires { Few s (length frame.now) }
    ensures { result ≡ after_frame t frame.now s next }
{
    let fault = frame_fault(t, s.n == 0, s.c, frame);
    if fault != 0 {
        return ended_at(s, next, fault);
    }
    Stand {
        at: next,
        to: s.to + frame.len(),
        n: s.n + 1,
        c: counted(t, s.c, byte_at(frame, 0)),
        fault: 0,
        ..s
    }
}

// The line from where the reading stands up to `next` was laid on the sheet; where there is none, it is no line of digits.
pub fn after_line(t: Text, sheet: &[u8], s: Stand, next: usize) -> Stand
    requires { LineRoom s sheet.now next }
    ensures { result ≡ after_line t sheet.now s next }
{
    if next == s.at {
        return ended_at(s, next, 1);
    }
    let end = s.to + (next - s.at) / 2;
    after_frame(t, &sheet[s.to..end], s, next)
}
