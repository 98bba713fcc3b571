// The fields of a script's entries, and where each entry ends. docs/REPLAY.md describes them. Script and position stay two parameters: each
// reader is given both, as its definition is.
#![tactic(auto)]

pub mod config;
pub mod def;
pub mod entry;
pub mod glide;
pub mod host;
pub mod name;
