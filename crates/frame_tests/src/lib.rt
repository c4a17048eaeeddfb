// The tests 2, 3 and 4 of one frame of a text.
#![tactic(auto)]

pub mod below;
pub mod tests;
