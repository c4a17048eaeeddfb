// What crates above take from those below this one.
pub use hexadecimal::{byte_at, short_at};
