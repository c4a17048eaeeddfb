// Bytes as digits, and the end of a line.
ghost use Rattle.std.specs.Prelude.{◌≡◌, [], ◌∷◌, ◌+◌, ◌*◌, ◌/◌, ◌%◌, ◌<◌, ◌≤◌, length, take};
ghost use Rattle.plans.specs.Limits.{line_end};
ghost use Rattle.plans.specs.StepFrames.{word_bytes};
ghost use Rattle.output.specs.Written.{Puts, PutsBytes};

use hexadecimal::hex_digit;

pub fn put_end(out: &mut [u8], at: usize) -> usize
    requires { at < 0x8000_0000 }
    ensures { Puts out.old at (line_end ∷ []) out.new result }
{
    if at < out.len() {
        out[at] = 10;
    }
    at + 1
}

// The two digits of a byte, each where there is room for it.
pub fn put_byte(out: &mut [u8], at: usize, b: u8) -> usize
    requires { at < 0x7000_0000 }
    ensures { PutsBytes out.old at (b ∷ []) out.new result }
{
    if at < out.len() {
        out[at] = hex_digit(b / 16);
    }
    if at + 1 < out.len() {
        out[at + 1] = hex_digit(b);
    }
    at + 2
}

// The digits of the bytes, each where there is room for it.
fn put_each(out: &mut [u8], at: usize, bytes: &[u8]) -> usize
    requires bytes_bound { length bytes.now < 0x1_0000 }
    requires at_bound { at < 0x6000_0000 }
    ensures { PutsBytes out.old at bytes.now out.new result }
{
    let mut to = at;
    for &b in bytes {
        to = put_byte(out, to, b);
    }
    to
}

// The digits of the bytes, where there is room for all of them.
fn store_each(out: &mut [u8], at: usize, bytes: &[u8])
    requires { at + 2 * length bytes.now ≤ length out.old }
    ensures { PutsBytes out.old at bytes.now out.new (at + 2 * length bytes.now) }
{
    let mut to = at;
    for &b in bytes {
        out[to] = hex_digit(b / 16);
        out[to + 1] = hex_digit(b);
        to += 2;
    }
}

// The digits of the first n bytes. The room is tested once, where it is enough and where there is none.
pub fn put_first(out: &mut [u8], at: usize, bytes: &[u8], n: usize) -> usize
    requires n_in_bounds { n ≤ length bytes.now }
    requires n_bound { n < 0x1_0000 }
    requires at_bound { at < 0x6000_0000 }
    ensures { PutsBytes out.old at (take n bytes.now) out.new result }
{
    let end = at + 2 * n;
    if end <= out.len() {
        store_each(out, at, &bytes[..n]);
        return end;
    }
    if out.len() <= at {
        return end;
    }
    put_each(out, at, &bytes[..n])
}

// A number of four bytes, the highest first.
pub fn put_word(out: &mut [u8], at: usize, x: u32) -> usize
    requires { at < 0x4000_0000 }
    ensures { PutsBytes out.old at (word_bytes x) out.new result }
{
    put_first(out, at, &x.to_be_bytes(), 4)
}

// A number of two bytes, the higher first.
pub fn put_short(out: &mut [u8], at: usize, x: u16) -> usize
    requires { at < 0x4000_0000 }
    ensures { PutsBytes out.old at (x / 0x100 ∷ x % 0x100 ∷ []) out.new result }
{
    put_first(out, at, &x.to_be_bytes(), 2)
}
