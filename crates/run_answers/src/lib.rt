// The answers of the runner's entries as the C functions give them: one number each, counts, and the line of a match.
#![tactic(auto)]

pub mod atoms;
pub mod below;
pub mod runs;
pub mod some;
