// What was sampled is remembered: a key is measured once, and a probe finds its key by the emitter of its operand.
#![tactic(auto)]

pub mod below;
pub mod memo;
pub mod sampled;
