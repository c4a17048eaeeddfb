// The rows of a table that stand, with the leaders of their classes, laid as frames on a sheet of their own.
#![tactic(auto)]

pub mod lay;
pub mod put;
pub mod row;
