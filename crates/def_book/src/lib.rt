// A book: one definition as bytes, so that a builder's data memory can hold it. What reading and writing answer, definitions and laws; the
// reader and the writer stand in crate book_bytes.
#![tactic(auto)]

pub mod answer;
pub mod body;
pub mod laws;
