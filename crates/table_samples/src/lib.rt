// The answers of a table to the sampler's three questions, by Note 3.
#![tactic(auto)]

pub mod below;
pub mod tables;
