// The entries of a script that make a store, spawn, wish, take turns and seal. Each is played by its public call, and what it answers is
// written.
#![tactic(auto)]

pub mod keyboards;
pub mod seals;
pub mod spawns;
