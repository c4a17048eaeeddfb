// The last of a run's tests: the atom that it names has a Join. And all tests of plan and table together.
#![tactic(auto)]

pub mod joins;
