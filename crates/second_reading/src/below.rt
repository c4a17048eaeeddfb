// What crates above take from those below this one.
pub use class_sets::below::{byte_at, short_at};
pub use class_sets::set::SET_WORDS;
pub use first_reading::below::{Text, is_atom};
pub use first_reading::first::{Fault, Lines, first_reading, sheet_size};
pub use indexing::below::{fixed_length, frame_at, has_kinds, item_width, items_of};
pub use indexing::index::{FEW_SLOTS, MANY_SLOTS, find_where};
