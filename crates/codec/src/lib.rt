// What the programs that are compared with the older program, in Rust, read and write: fields of a binary input that is lent whole, and the words
// of a line of text.
#![tactic(auto)]

pub mod descriptor;
pub mod field;
pub mod line;
pub mod output;
pub mod word;
