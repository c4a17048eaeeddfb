// What crates above take from those below this one.
pub use table_tests::below::Refusal;
pub use world_run::world::Handed;
