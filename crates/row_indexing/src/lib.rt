// The index of a table's rows, made: behind the index of a query, in the same array.
#![tactic(auto)]

pub mod fill;
