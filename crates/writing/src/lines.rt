// The header of a plan.
ghost use Rattle.std.specs.Prelude.{◌≡◌, [], ◌∷◌, ◌<◌};
ghost use Rattle.output.specs.StepFrames.{header_of};
ghost use Rattle.output.specs.Written.{PutsFrames};

use output::parts::put_line;
use records::shorts::{high_of, low_of};

// What a plan's header tells.
#[derive(Clone, Copy)]
pub struct Head {
    pub variables: u8,
    pub globals: u8,
    pub literals: u8,
    pub steps: u16,
    pub tallied: u16,
    pub rejected: u16,
}

// 3f variables globals literals steps(2) tallied(2) rejected(2)
fn header_bytes(h: Head) -> [u8; 10]
    ensures { result ≡ header_of h.variables h.globals h.literals h.steps h.tallied h.rejected }
{
    [
        0x3f,
        h.variables,
        h.globals,
        h.literals,
        high_of(h.steps),
        low_of(h.steps),
        high_of(h.tallied),
        low_of(h.tallied),
        high_of(h.rejected),
        low_of(h.rejected),
    ]
}

// The header's line.
pub fn header(h: Head, out: &mut [u8], at: usize) -> usize
    requires { at < 0x3000_0000 }
    ensures { PutsFrames out.old at (header_of h.variables h.globals h.literals h.steps h.tallied h.rejected ∷ []) out.new result }
{
    put_line(out, at, &header_bytes(h))
}
