// A row's frame with the leaders of its classes.
ghost use Rattle.std.specs.Prelude.{◌≡◌, true, ◌+◌, ◌*◌, ◌<◌, ◌≤◌, length, get_or};
ghost use Rattle.frame_tests.specs.Faults.{is_row};
ghost use Rattle.indexing.specs.Index.{Indexed};
ghost use Rattle.standing.specs.Laid.{Lays, head_bytes, value_bytes, child_bytes, led_frame};

use super::put::{put_byte, put_short};
use hexadecimal::{byte_at, short_at};
use leaders::leader::leader;

// Kind, class and operator.
fn put_head(sheet: &[u8], index: &[u16], frame: &[u8], out: &mut [u8], at: usize) -> usize
    requires indexed { Indexed sheet.now index.now }
    requires at_in_bounds { at + 4 ≤ length out.old }
    ensures { Lays out.old at (head_bytes sheet.now frame.now) out.new result }
{
    let to = put_byte(out, at, byte_at(frame, 0));
    let class = short_at(frame, 1);
    let leads = leader(sheet, index, class);
    let op = put_short(out, to, leads);
    put_byte(out, op, byte_at(frame, 3))
}

// The value of a literal, as it is.
fn put_value(frame: &[u8], out: &mut [u8], at: usize) -> usize
    requires { at + 4 ≤ length out.old }
    ensures { Lays out.old at (value_bytes frame.now) out.new result }
{
    let second = put_byte(out, at, byte_at(frame, 4));
    let third = put_byte(out, second, byte_at(frame, 5));
    let last = put_byte(out, third, byte_at(frame, 6));
    put_byte(out, last, byte_at(frame, 7))
}

// The leaders of n children.
fn put_children(
    sheet: &[u8],
    index: &[u16],
    frame: &[u8],
    n: usize,
    out: &mut [u8],
    at: usize,
) -> usize
    requires indexed { Indexed sheet.now index.now }
    requires n_bound { n < 256 }
    requires n_in_bounds { at + 2 * n ≤ length out.old }
    ensures { Lays out.old at (child_bytes sheet.now frame.now n) out.new result }
{
    let mut to = at;
    for j in 0..n {
        let class = short_at(frame, 5 + 2 * j);
        let led = leader(sheet, index, class);
        to = put_short(out, to, led);
    }
    to
}

// The frame of a row, with leaders, at `at`: the place behind it.
pub fn put_row(sheet: &[u8], index: &[u16], frame: &[u8], out: &mut [u8], at: usize) -> usize
    requires indexed { Indexed sheet.now index.now }
    requires frame_value { is_row (get_or frame.now 0 0) ≡ true }
    requires frame_in_bounds { at + length (led_frame sheet.now frame.now) ≤ length out.old }
    ensures { Lays out.old at (led_frame sheet.now frame.now) out.new result }
{
    let head = put_head(sheet, index, frame, out, at);
    if byte_at(frame, 0) != 0x30 {
        return put_value(frame, out, head);
    }
    let n = byte_at(frame, 4);
    let count = put_byte(out, head, n);
    put_children(sheet, index, frame, usize::from(n), out, count)
}
