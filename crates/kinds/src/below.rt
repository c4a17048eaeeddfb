// What crates above take from those below this one.
pub use fields::below::byte_at;
pub use fields::field::{Counts, Test, field_fits, field_passes, width};
