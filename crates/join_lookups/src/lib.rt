// The lookups of a Join by the operands that are bound: how many, and their bytes.
#![tactic(auto)]

pub mod operands;
