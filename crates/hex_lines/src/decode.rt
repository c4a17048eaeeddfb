// A line of digits, laid as bytes on a sheet.
ghost use Rattle.std.specs.Prelude.{◌≡◌, ◌+◌, ◌*◌, ◌-◌, ◌%◌, ◌<◌, ◌≤◌};
ghost use Rattle.hex_lines.specs.Lines.{stopped_at};
ghost use Rattle.hex_lines.specs.Decoding.{Room, Decodes};

use hexadecimal::digit_value;

// Whether the bytes from `at` up to i, all digits, are a whole line that byte b ends.
fn stopped(at: usize, i: usize, b: u8) -> Option<usize>
    requires { at ≤ i }
    ensures { result ≡ stopped_at at i b }
{
    if b == 10 && i - at != 0 && (i - at) % 2 == 0 {
        Some(i)
    } else {
        None
    }
}

// The line of digits at `at` is laid as bytes on the sheet, from place `to` on: the place of the 0a that ends it. One pass over the line.
pub fn decode_line(text: &[u8], at: usize, sheet: &mut [u8], to: usize) -> Option<usize>
    requires { Room text.now at sheet.old to }
    ensures { Decodes text.now at sheet.old to sheet.new result }
{
    if text.len() == 0 {
        return None;
    }
    let last = text.len() - 1;
    let mut i = at;
    let mut j = to;
    while i < last {
        let high = digit_value(text[i]);
        if high == 16 {
            return stopped(at, i, text[i]);
        }
        let low = digit_value(text[i + 1]);
        if low == 16 {
            return None;
        }
        sheet[j] = high * 16 + low;
        i += 2;
        j += 1;
    }
    if i < text.len() {
        return stopped(at, i, text[i]);
    }
    None
}
