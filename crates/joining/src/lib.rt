// The line of an atom's Join: by the class of its node where that is bound, else by its operator and the operands that are bound.
#![tactic(auto)]

pub mod join;
