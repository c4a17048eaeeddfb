// The text of a plan by the order of its atoms: its size, and its lines written.
#![tactic(auto)]

pub mod below;
pub mod text;
