// The rows of a table that are passed over.
#![tactic(auto)]

pub mod passed;
