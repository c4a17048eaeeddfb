// What crates above take from those below this one.
pub use frame_tests::tests::Text;
pub use table_run::below::Refusal;
