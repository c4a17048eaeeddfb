// A query that asks for a table, and the table behind it: read onto one sheet, with one index.
#![tactic(auto)]

pub mod below;
pub mod beside;
pub mod gather;
