// The rows of a table that a planner samples from: an index of them by operator and by the classes of their children, and what is read by it.
#![tactic(auto)]

pub mod below;
pub mod index;
pub mod sample;
