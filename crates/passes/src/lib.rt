// The atoms of a sheet, and eager passes over them.
#![tactic(auto)]

pub mod below;
pub mod eager;
