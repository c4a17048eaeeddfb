// The second reading: what there is to name in a text, and each frame tested 5, 6, 7, 14 and 13 in turn and entered into the index.
#![tactic(auto)]

pub mod below;
pub mod leading;
pub mod lines;
pub mod sheets;
