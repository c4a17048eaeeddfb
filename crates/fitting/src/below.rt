// What crates above take from those below this one.
pub use gathering::below::{Refusal, find_order, plan_order};
pub use gathering::beside::{read_beside, table_if};
pub use gathering::gather::{BOTH_SHEETS, gather};
