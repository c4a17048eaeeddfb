// The prices of a query's atoms that no sample changes, in one table.
#![tactic(auto)]

pub mod items;
pub mod table;
