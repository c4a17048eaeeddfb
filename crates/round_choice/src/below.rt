// What crates above take from those below this one.
pub use choosing::below::{Scheduler, take_next};
