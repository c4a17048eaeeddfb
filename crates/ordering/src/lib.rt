// The order in which the atoms of an accepted query are lowered, with room by need.
#![tactic(auto)]

pub mod below;
pub mod order;
