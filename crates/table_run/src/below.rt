// What crates above take from those below this one.
pub use sheet_run::below::{Handed, Refusal};
