// Where the frames of a query's atoms begin and end on its sheet.
#![tactic(auto)]

pub mod places;
