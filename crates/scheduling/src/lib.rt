// The greedy loop: eager rounds, and the cheapest atom behind each.
#![tactic(auto)]

pub mod schedule;
