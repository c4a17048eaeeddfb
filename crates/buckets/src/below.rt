// What crates above take from those below this one.
pub use row_frames::below::{
    copy_shorts, find_where, fixed_length, frame_at, is_atom, item_width, items_of,
};
pub use row_frames::row::{OP_PATH, Want, child_count};
