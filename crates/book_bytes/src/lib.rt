// The reader and the writer of a book: one definition as bytes, as crate def_book defines it.
#![tactic(auto)]

mod field;
mod put;
pub mod read;
mod rows;
pub mod sorts;
pub mod write;
