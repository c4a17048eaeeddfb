// Lines of hexadecimal digits, each ended by byte 0a: decoded onto a sheet of raw bytes, and walked by a reader.
#![tactic(auto)]

pub mod below;
pub mod decode;
pub mod lines;
pub mod reader;
