// A definition: the template of a voice (the scope has it in a file synthdef.rs: docs/CRATES.md). Its limits, its counted edges, its
// parameters, and the done plan that says when a voice built from it has fallen silent.
#![tactic(auto)]

pub mod def;
pub mod edges;
pub mod instance;
pub mod limits;
pub mod params;
pub mod plan;
pub mod silent;
