// The processing order and prepare (graph.rs of the older program: docs/CRATES.md), on lists of nodes and edges: definitions, and the laws of the loops that compute them
// on lent tables (crate order_table).
#![tactic(auto)]
