// What crates above take from those below this one.
pub use choices::below::SearchEnd;
pub use choices::choice::first_cursor;
