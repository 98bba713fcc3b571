// See specs/Contract.antt, and proofs/Refined.antt for the theorem.
#![tactic(auto)]

pub mod laws;
