// What crates above take from those below this one.
pub use query::below::asks_table;
pub use query::statistics::{base_card, by_child_pos, by_contains, by_repr, denominator, nodes};
pub use table_samples::below::{fixed_length, frame_at, is_atom, item_width, items_of};
