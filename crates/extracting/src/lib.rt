// The steps behind a Join that read the node it picked: a step for each child of a Plain, one step with the elements of a collection.
#![tactic(auto)]

pub mod children;
pub mod elements;
