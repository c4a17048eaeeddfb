// A table decoded once: the rows that stand, as words with the numbers behind them.
#![tactic(auto)]

pub mod decode;
