// What crates above take from those below this one.
pub use entries::run::run;
pub use entries::some::some_match;
