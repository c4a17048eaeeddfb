// What crates above take from those below this one.
pub use buckets::below::{copy_shorts, fixed_length, frame_at, is_atom, item_width, items_of};
