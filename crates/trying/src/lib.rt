// The next option of a Join, with the tries counted and the end of them noted.
#![tactic(auto)]

pub mod below;
pub mod option;
