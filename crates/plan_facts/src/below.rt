// What crates above take from those below this one.
pub use cost::draws::{Measurement, measure_key};
pub use cost::memo::{Sampling, counted, pack_key};
pub use cost::probes::Key;
