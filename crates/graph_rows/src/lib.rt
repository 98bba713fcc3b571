// The records of the graph in lent words: a node in 22, an edge in 3. Row by row, and field by field for the loops that read
// one field of every row.
#![tactic(auto)]

pub mod edge_row;
pub mod node_row;
