// What crates above take from those below this one.
pub use fitting::below::Refusal;
pub use fitting::fit::{PLAN_MOST, Written};
