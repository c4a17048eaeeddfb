// Sets of classes, a bit for each class.
#![tactic(auto)]

pub mod below;
pub mod set;
