// What isolation says of a board (specs/Isolated.antt).
#![tactic(auto)]

pub mod laws;
