// The edges of the graph as a list: connecting and disconnecting a port, removing the edges of nodes that are removed, and what can be
// asked of the edges: the lowest port without an edge, the port that a source feeds, the sources of a node. Definitions and laws, and one
// test of a list of keys; the tables themselves are lent, and the functions on them stand in crate graph_tables.
#![tactic(auto)]

pub mod table;
