// A round of the scheduler: an eager round, and the choice behind it with its costs.
#![tactic(auto)]

pub mod below;
pub mod next;
