// Text put into a lent output, as far as there is room: digits, a frame's bytes as the table of kinds has them, the end of a line.
#![tactic(auto)]

pub mod bytes;
pub mod parts;
