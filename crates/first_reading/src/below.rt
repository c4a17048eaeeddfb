// What crates above take from those below this one.
pub use line_steps::below::{Text, is_atom};
