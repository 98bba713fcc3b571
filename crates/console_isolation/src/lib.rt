// What isolation says of a console (specs/Isolated.antt).
#![tactic(auto)]

pub mod laws;
