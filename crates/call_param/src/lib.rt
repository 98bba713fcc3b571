// Values and glides on a lent store. They become the last order of a node: six words of its row are stored, and no other table is
// touched.
#![tactic(auto)]

mod apply;
mod last;
pub mod left;
mod named;
pub mod number;
pub mod param;
