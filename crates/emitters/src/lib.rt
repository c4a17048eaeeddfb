// The emitters of a query's variables, a number for each.
#![tactic(auto)]

pub mod numbers;
