// What crates above take from those below this one.
pub use frames::below::byte_at;
pub use frames::frame::frame_at;
