// What crates above take from those below this one.
pub use planner::entry::plan;
