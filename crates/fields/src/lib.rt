// The fields that frames are made of, each by its code: its width, and the tests 4, 5 and 6 of one.
#![tactic(auto)]

pub mod below;
pub mod field;
