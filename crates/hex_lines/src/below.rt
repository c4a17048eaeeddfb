// What crates above take from those below this one.
pub use hexadecimal::short_at;
