// The keys of frames: whether a frame begins with the key of another.
#![tactic(auto)]

pub mod below;
pub mod keys;
