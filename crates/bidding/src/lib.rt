// The atoms that are candidates, and the cheaper of two: a cost against the best before it.
#![tactic(auto)]

pub mod bid;
