// The lines of a transcript, written to standard output. docs/REPLAY.md describes them.
// Functions and no `Display`: the records are types of other crates, and a float is written as its pattern.
#![tactic(auto)]

pub mod answer;
pub mod graphs;
pub mod line_words;
pub mod queue;
pub mod state;
pub mod stolen;
pub mod voices;
