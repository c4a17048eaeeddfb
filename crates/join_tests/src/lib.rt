// The tests of a plan's Join, and what they ask of the marks of variables, the shapes of operators and the classes of globals.
#![tactic(auto)]

pub mod arrays;
pub mod joins;
pub mod seen;
