// What a step leaves: the marks of the variables that it binds, and of the one that a Join picks.
ghost use Rattle.std.specs.Prelude.{◌≡◌, ◌+◌};
ghost use Rattle.validation.specs.Marks.{binds_target, bound_mark, Markable, Stepped};

use hexadecimal::byte_at;

fn binds(kind: u8) -> bool
    ensures { result ≡ binds_target kind }
{
    matches!(kind, 0x41 | 0x45 | 0x46)
}

// The mark of a variable that a Join picks.
fn picked_mark(op: u8) -> u16
    ensures { result ≡ 2 + op }
{
    2 + u16::from(op)
}

// The mark of a variable that is bound, by its mark before.
fn bound_mark(mark: u16) -> u16
    ensures { result ≡ bound_mark mark }
{
    mark.max(1)
}

// Marks what the step of a frame binds and picks; op is a Join's operator.
pub fn step_marks(frame: &[u8], op: u8, marks: &mut [u16])
    requires { Markable frame.now op marks.old }
    ensures { Stepped frame.now marks.old marks.new }
{
    let kind = byte_at(frame, 0);
    let v = usize::from(byte_at(frame, 1));
    if kind == 0x40 {
        marks[v] = picked_mark(op);
    } else if binds(kind) {
        marks[v] = bound_mark(marks[v]);
    }
}
