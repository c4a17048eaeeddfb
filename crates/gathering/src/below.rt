// What crates above take from those below this one.
pub use first_reading::first::Refusal;
pub use frame_tests::tests::Text;
pub use ordering::below::Scheduled;
pub use ordering::order::{find_order, plan_order};
