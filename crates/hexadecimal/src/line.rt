// The bytes of a line of digits, read off the digits where they stand: for a line that is looked at once.
ghost use Rattle.std.specs.Prelude.{◌≡◌, ◌%◌, ◌<◌, get_or};
ghost use Rattle.hexadecimal.specs.Digits.{digit_value, bytes_of};

use super::digit_value;

fn nibble(b: u8) -> u8
    ensures { (result ≡ digit_value b % 16) × (result < 16) }
{
    digit_value(b) % 16
}

// The i-th byte of a line, and 0 past its end.
pub fn byte_at(line: &[u8], i: usize) -> u8
    ensures { result ≡ get_or (bytes_of line.now) i 0 }
{
    if line.len() / 2 <= i {
        return 0;
    }
    nibble(line[2 * i]) * 16 + nibble(line[2 * i + 1])
}
