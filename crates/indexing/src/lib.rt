// Frames found by their keys: an index of a sheet.
#![tactic(auto)]

pub mod below;
pub mod index;
