// The store's reading calls for a host in C, the page, fade output and bus sum. What is read stands in cells and records that the host
// lends; a record has the words of a row of its table.
// A table is a parameter of its own, since a signature shows what a call may touch.
#![tactic(auto)]

pub mod cell;
pub mod look;
pub mod mix;
pub mod steal;
pub mod table;
