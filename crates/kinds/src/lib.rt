// The table by kind.
#![tactic(auto)]

pub mod below;
pub mod table;
