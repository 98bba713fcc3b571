// The graph's two tables in lent words, changed in place: finding a node, adding one, connecting and disconnecting, the port
// search, the removal of nodes with the edges that touch them, and the noise sequence of a bus. The caller holds the counts.
#![tactic(auto)]

pub mod lookup;
pub mod noise;
pub mod ports;
pub mod removal;
pub mod tests;
pub mod wiring;
