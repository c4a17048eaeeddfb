// The plan's text, written into a lent output where there is room: the header, and the steps of the atoms in an order; the next place is told always.
#![tactic(auto)]

pub mod lines;
pub mod steps;
