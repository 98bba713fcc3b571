// Clearing: the voices whose fade has ended are removed from the lent tables, then those whose done plan is silent.
#![tactic(auto)]

pub mod clear;
mod silence;
