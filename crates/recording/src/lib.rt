// The emitters are recorded, atom by atom, as the atoms are lowered.
#![tactic(auto)]

pub mod changed;
pub mod record;
