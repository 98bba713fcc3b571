// Plays the entries of a script on a store, one after the other, and writes what they answer. docs/REPLAY.md describes them.
#![tactic(auto)]

mod player;
pub mod run;
pub mod slots;
mod window;
