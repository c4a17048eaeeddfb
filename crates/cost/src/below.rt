// What crates above take from those below this one.
pub use samplers::below::{
    base_card, by_child_pos, by_contains, by_repr, denominator, fixed_length, item_width, items_of,
    nodes,
};
