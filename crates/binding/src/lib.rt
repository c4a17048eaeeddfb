// Sets of the variables that are bound, and the operands of a frame, asked for and marked in them.
#![tactic(auto)]

pub mod below;
pub mod operands;
pub mod sets;
