// The costs of a round, for whoever asks how the order came about.
#![tactic(auto)]

pub mod below;
pub mod rounds;
