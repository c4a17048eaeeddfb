// What crates above take from those below this one.
pub use plan_facts::below::{Key, Sampling, counted, measure_key, pack_key};
