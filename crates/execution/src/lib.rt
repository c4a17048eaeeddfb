// The run from text to text: plan and table are read, tested and decoded once, and the plan is run over the rows.
#![tactic(auto)]

pub mod below;
pub mod texts;
