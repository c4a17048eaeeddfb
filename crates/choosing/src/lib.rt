// The choice of a round: the cheapest of the atoms that are left.
#![tactic(auto)]

pub mod below;
pub mod choose;
