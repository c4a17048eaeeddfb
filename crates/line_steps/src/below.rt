// What crates above take from those below this one.
pub use frame_tests::below::frame_at;
pub use frame_tests::tests::{Text, is_atom, text_number};
