// The busiest stretch of a run of steal records, and the newest records of the store as such a run.
#![tactic(auto)]

pub mod newest;
pub mod stretch;
