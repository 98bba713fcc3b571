// What making is asked for and what it fixes, a voice, a spawn that is asked for, and the answers of the calls: types only. Every value of these types is accepted by
// every call.
#![tactic(auto)]

pub mod answer;
pub mod config;
pub mod wish;
