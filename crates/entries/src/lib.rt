// The runner's two entries: plan text, table text and allowance in; the run with its lent output, or some match.
#![tactic(auto)]

pub mod below;
pub mod run;
pub mod some;
