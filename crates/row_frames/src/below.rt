// What crates above take from those below this one.
pub use records::below::{
    byte_at, find_where, fixed_length, frame_at, is_atom, item_width, items_of,
};
pub use records::shorts::copy_shorts;
