// What lists need everywhere: definitions and laws, in specs/ and proofs/, a copy of bytes, and a table of rows in fixed memory. Counts, widths
// and lookups are the library's.
#![tactic(auto)]

pub mod byte;
pub mod rows;
