// The sampler's three questions, answered by the query's sample sheets or by a table.
#![tactic(auto)]

pub mod ask;
pub mod below;
pub mod sheets;
