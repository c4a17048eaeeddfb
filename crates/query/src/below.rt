// What crates above take from those below this one.
pub use given::search::{asks_table, find_in};
pub use measure::SamplerConfig;
