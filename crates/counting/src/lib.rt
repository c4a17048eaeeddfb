// The counts of a run, and what they become where its steps end: a match, where its line has room.
#![tactic(auto)]

pub mod count;
