// What crates above take from those below this one.
pub use binding::below::{base_card, by_child_pos, by_contains, by_repr, denominator, nodes};
pub use binding::operands::pv_is_bound;
pub use binding::sets::{is_set, set_bound};
