// The atom that a caller outside names by a number.
ghost use Rattle.std.specs.Prelude.{◌≡◌};
ghost use Rattle.modes.specs.Modes.{mode_of};
ghost use Rattle.run_answers.specs.Atoms.{mode_from};

// The largest number names none.
pub const NO_ATOM: u64 = 0xffff_ffff_ffff_ffff;

// The atom, if one is named.
pub fn delta_atom(atom: u64) -> Option<u64>
    ensures { mode_of result ≡ mode_from atom }
{
    if atom == NO_ATOM {
        return None;
    }
    Some(atom)
}
