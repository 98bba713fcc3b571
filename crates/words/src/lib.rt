// Tables in words that the caller lends: rows of a fixed number of 32-bit words, one after the other; and the fields of a
// record in words. A record's own crate says which word is which field.
#![tactic(auto)]

pub mod fields;
pub mod table;
