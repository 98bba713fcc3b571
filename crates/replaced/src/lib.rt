// A queue that replaces leaves the store as one that keeps all: see specs/Replaced.antt.
#![tactic(auto)]

pub mod laws;
