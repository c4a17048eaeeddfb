// The runner's test of a table, on its sheet; the classes of its globals; the first of its new rows.
#![tactic(auto)]

pub mod below;
pub mod globals;
pub mod new_rows;
pub mod shapes;
