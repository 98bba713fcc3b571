//! Laws of the rules that model and ledger share, each in the rule's own words: agreement of the two machines says
//! nothing of a rule that both take from one definition. Each law is the contract of a function that takes nothing and
//! does nothing, so that a caller has it by a call.
#![tactic(auto)]

pub mod clear;
pub mod events;
pub mod numbers;
pub mod orders;
pub mod policy;
pub mod reading;
pub mod render;
pub mod silence;
pub mod sound;
pub mod wishes;
