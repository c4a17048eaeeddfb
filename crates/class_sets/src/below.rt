// What crates above take from those below this one.
pub use fields::below::{byte_at, short_at};
pub use fields::field::Counts;
