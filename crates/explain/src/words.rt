// Words and operands on standard output; what cannot be written is left out.
ghost use Rattle.std.specs.Prelude.{◌<◌};

use hexadecimal::byte_at;
use std::fmt;

macro_rules! say {
    ($rt:expr; $($words:tt)*) => {{
        let _ = print!($rt; $($words)*);
    }};
}

pub(crate) use say;

// A variable or a global, by its number.
#[derive(Clone, Copy)]
pub enum Operand {
    Variable(u8),
    Global(u8),
}

impl fmt::Display for Operand {
    fn fmt<W: fmt::Write>(&self, f: &mut fmt::Formatter<W>) -> fmt::Result {
        match self {
            Operand::Variable(v) => write!(f, "v{v}"),
            Operand::Global(g) => write!(f, "g{g}"),
        }
    }
}

// The operand at byte i of a frame.
pub fn operand_at(frame: &[u8], i: usize) -> Operand
    requires { i < 0x2_0000 }
{
    let index = byte_at(frame, i + 1);
    if byte_at(frame, i) == 0 {
        Operand::Variable(index)
    } else {
        Operand::Global(index)
    }
}
