// What crates above take from those below this one.
pub use advancing::advance::{Scheduler, advance, take_next};
pub use bidding::bid::Best;
