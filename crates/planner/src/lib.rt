// The planner: a query text and a lent output in, the plan and its numbers out.
#![tactic(auto)]

pub mod entry;
