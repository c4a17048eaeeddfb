// What crates above take from those below this one.
pub use cost::below::{base_card, by_child_pos, by_contains, by_repr, denominator, nodes};
