// The plan of a query by a sheet and an index that are lent: read, and planned where it is accepted.
#![tactic(auto)]

pub mod accepted;
pub mod below;
