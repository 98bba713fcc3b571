// Answers the vectors of `level` and `bus`.
#![tactic(auto)]

pub mod blocks;
pub mod levels;
