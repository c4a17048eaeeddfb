// How frames of a table and of a plan are read, rows and lookups: definitions in specs/, on which plans and runs both stand, their laws in proofs/,
// the copy of a frame's numbers into an array, and the bytes of a number.
#![tactic(auto)]

pub mod below;
pub mod shorts;
