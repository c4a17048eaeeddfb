// What crates above take from those below this one.
pub use first_reading::first::Refusal;
pub use fitting::fit::Written;
