// The port search of a spawn alone, for a driver in Rust that times it (oracle/bench).
#![tactic(auto)]

ghost use Rattle.std.specs.Prelude.{◌≡◌, take};
ghost use Rattle.edges.specs.Ports.{free_port};
ghost use Rattle.graph_rows.specs.Edge.{edges_in};
ghost use Rattle.port_search.specs.Number.{number_of};

use graph_rows::edge_row::EdgeTable;
use graph_tables::ports::free_port;
use node::record::NodeId;

// The lowest port of `node` below `ports` that nothing feeds; 64 if there is none, since a number is what C reads.
#[unsafe(no_mangle)]
pub extern "C" fn piecrag_free_port(edges: &EdgeTable, count: usize, node: u32, ports: u32) -> u32
    ensures { result ≡ number_of (free_port (take count (edges_in edges.now)) (record { 0 = node }) ports) }
{
    free_port(edges, count, NodeId(node), ports).unwrap_or(64)
}
