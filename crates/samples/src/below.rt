// What crates above take from those below this one.
pub use memo_entries::below::Sampling;
