// What crates above take from those below this one.
pub use kinds::below::byte_at;
pub use kinds::table::{fixed_length, item_width, key_length, low_byte, row, tests_of};
