// A row of a table by its frame: its children, and whether it is one that is asked for.
#![tactic(auto)]

pub mod below;
pub mod row;
