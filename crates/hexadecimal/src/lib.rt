// Hexadecimal digits, and the fields of two, four and eight bytes of a raw frame, or of a line of digits.
#![tactic(auto)]

ghost use Rattle.std.specs.Prelude.{◌≡◌, ◌+◌, ◌*◌, ◌-◌, ◌%◌, ◌<◌, ◌≤◌, get_or};
ghost use Rattle.hexadecimal.specs.Digits.{digit_value, hex_digit, short_at, word_at, long_at};

pub mod line;

// What a byte counts as a digit, of either letter case: 16 where it is none.
pub fn digit_value(b: u8) -> u8
    ensures { (result ≡ digit_value b) × (result ≤ 16) }
{
    match b {
        b'0'..=b'9' => b - 48,
        b'A'..=b'F' => b - 55,
        b'a'..=b'f' => b - 87,
        _ => 16,
    }
}

// The digit that is written for a value; any other number counts by its last four binary places.
pub fn hex_digit(v: u8) -> u8
    ensures { result ≡ hex_digit (v % 16) }
{
    let digit = v % 16;
    if digit < 10 { 48 + digit } else { 87 + digit }
}

// The i-th byte of a frame, and 0 past its end.
pub fn byte_at(frame: &[u8], i: usize) -> u8
    ensures { result ≡ get_or frame.now i 0 }
{
    frame.get(i).copied().unwrap_or(0)
}

// The fields of two, four and eight bytes that begin at byte i, the highest byte first.
pub fn short_at(frame: &[u8], i: usize) -> u16
    requires { i < 65536 }
    ensures { result ≡ short_at frame.now i }
{
    let high = u16::from(byte_at(frame, i));
    let low = u16::from(byte_at(frame, i + 1));
    high * 0x100 + low
}

// Four bytes as one number.
fn joined(a: u8, b: u8, c: u8, d: u8) -> u32
    ensures { (result ≡ (a * 0x100 + b) * 0x1_0000 + (c * 0x100 + d)) × (result < 4294967296) }
{
    u32::from_be_bytes([a, b, c, d])
}

pub fn word_at(frame: &[u8], i: usize) -> u32
    requires { i < 65500 }
    ensures { result ≡ word_at frame.now i }
{
    if i + 4 <= frame.len() {
        return joined(frame[i], frame[i + 1], frame[i + 2], frame[i + 3]);
    }
    let high = u32::from(short_at(frame, i));
    let low = u32::from(short_at(frame, i + 2));
    high * 0x1_0000 + low
}

pub fn long_at(frame: &[u8], i: usize) -> u64
    requires { i < 65400 }
    ensures { result ≡ long_at frame.now i }
{
    let high = u64::from(word_at(frame, i));
    let low = u64::from(word_at(frame, i + 4));
    high * 0x1_0000_0000 + low
}
