// The bytes of a field together: those that are not used are 00; and the bits of a real that is finite and not below 0.
#![tactic(auto, using(base::proofs::ChooseLaws::tests))]

pub mod values;
