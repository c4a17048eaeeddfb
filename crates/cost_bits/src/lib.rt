// The costs of a round as bits in an array, all ones where there is none.
#![tactic(auto)]

pub mod bits;
pub mod told;
