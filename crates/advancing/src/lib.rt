// The scheduler's state, and the atoms that it lowers: those of an eager round, and the one that was chosen.
#![tactic(auto)]

pub mod advance;
