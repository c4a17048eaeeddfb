// Bytes laid behind others.
ghost use Rattle.std.specs.Prelude.{[], ◌∷◌, ◌+◌, ◌<◌, ◌≤◌, length};
ghost use Rattle.records.specs.ModelLimits.{class_bytes};
ghost use Rattle.standing.specs.Laid.{Lays};

use records::shorts::{high_of, low_of};

pub fn put_byte(out: &mut [u8], at: usize, b: u8) -> usize
    requires { at < length out.old }
    ensures { Lays out.old at (b ∷ []) out.new result }
{
    out[at] = b;
    at + 1
}

// A number of two bytes, the higher first.
pub fn put_short(out: &mut [u8], at: usize, x: u16) -> usize
    requires { at + 2 ≤ length out.old }
    ensures { Lays out.old at (class_bytes x) out.new result }
{
    let to = put_byte(out, at, high_of(x));
    put_byte(out, to, low_of(x))
}
