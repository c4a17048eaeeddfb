// The entries of the memo: the number of a key with whether it gave a value, found again by its key.
#![tactic(auto)]

pub mod below;
pub mod entry;
