//! The graph of the store: `AudioGraph`, and the record of a host's node. Its definitions speak of plain lists (specs/View.antt).
#![tactic(auto)]

pub mod audio_graph;
mod edge_table;
pub mod host;
mod node_table;
pub mod tests;
mod topological_sort;
