// The first reading of a text, which lays its frames on a sheet.
#![tactic(auto)]

pub mod below;
pub mod first;
