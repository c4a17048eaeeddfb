// The run of a plan on its sheet over a table text, with the arrays that are lent for the table.
#![tactic(auto)]

pub mod below;
pub mod tables;
