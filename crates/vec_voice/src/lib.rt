// Answers the vectors of `scheduler` and `voice`. Lines are written by functions and no `Display`: the types are those of other crates.
#![tactic(auto)]

pub mod queues;
pub mod victims;
