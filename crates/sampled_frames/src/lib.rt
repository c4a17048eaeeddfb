// The frames of a table that samples are taken from.
#![tactic(auto)]

pub mod lay;
