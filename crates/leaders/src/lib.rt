// The leader of a class, by the index of a table's sheet.
#![tactic(auto)]

pub mod leader;
