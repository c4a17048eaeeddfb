// The cost of an atom: its price, and the selectivity of each bound item, sampled or not.
#![tactic(auto)]

pub mod costs;
pub mod items;
