// The run of a plan over a table on their sheets: tested, decoded and run.
#![tactic(auto)]

pub mod below;
pub mod sheets;
