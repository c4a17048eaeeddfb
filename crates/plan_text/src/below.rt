// What crates above take from those below this one.
pub use writing::steps::count_steps;
