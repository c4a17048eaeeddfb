// The plan in the order that was found, where the output has room for it, and the planner's definition.
#![tactic(auto)]

pub mod below;
pub mod fit;
