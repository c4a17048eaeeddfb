// What an accepted query says of its plan: definitions in specs/, theorems in proofs/.
#![tactic(auto)]

pub mod below;
