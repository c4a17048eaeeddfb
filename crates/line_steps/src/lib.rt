// Where the first reading stands between two lines, and how a line moves it on or ends it.
#![tactic(auto)]

pub mod below;
pub mod stand;
