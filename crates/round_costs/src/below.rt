// What crates above take from those below this one.
pub use first_reading::below::Text;
pub use first_reading::first::Refusal;
pub use fitting::below::table_if;
pub use fitting::fit::Written;
