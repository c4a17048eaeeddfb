// The bytes of a step or a lookup, by an atom's frame and what is bound: which step it is, and what stands in its fields.
#![tactic(auto)]

pub mod collection;
pub mod joins;
pub mod operand;
pub mod single;
