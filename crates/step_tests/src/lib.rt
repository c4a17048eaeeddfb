// The tests of a plan's step other than a Join.
#![tactic(auto)]

pub mod faults;
pub mod simple;
