// The steps of one atom, as lines: all 14 kinds, and what each binds.
#![tactic(auto)]

pub mod atom;
