// The entries of a script that the host makes on a store: counters, nodes and wiring, voices, blocks, questions. Each is played by its public
// call, and what it answers is written. Each lent table is a parameter of its own, a rule of the project: a signature shows what a function
// may touch.
#![tactic(auto)]

pub mod blocks;
pub mod host;
pub mod tell;
pub mod voices;
