// What crates above take from those below this one.
pub use frame_keys::below::{
    fixed_length, frame_at, has_kinds, item_width, items_of, key_length, range_passes, reals_pass,
    tests_of,
};
pub use frame_keys::keys::begins;
