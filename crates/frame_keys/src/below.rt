// What crates above take from those below this one.
pub use frames::among::has_kinds;
pub use frames::below::{fixed_length, item_width, key_length, tests_of};
pub use frames::frame::{frame_at, items_of, range_passes, reals_pass};
