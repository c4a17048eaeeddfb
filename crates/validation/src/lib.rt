// The runner's tests of a plan and a table, on their sheets, behind the reading of both texts.
#![tactic(auto)]

pub mod marks;
pub mod plan;
pub mod steps;
pub mod validate;
