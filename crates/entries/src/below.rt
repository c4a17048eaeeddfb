// What crates above take from those below this one.
pub use execution::below::Refusal;
