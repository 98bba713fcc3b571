ghost use Rattle.std.specs.Prelude.{◌≡◌, take};
ghost use Rattle.edges.specs.Wiring.{no_place};
ghost use Rattle.graph.specs.Node.{node_at};
ghost use Rattle.graph.specs.Refuse.{host_test, port_test, wire_test};
ghost use Rattle.graph.specs.Tables.{answer_of};
ghost use Rattle.graph_rows.specs.Node.{nodes_in};
ghost use Rattle.graph_rows.specs.Edge.{edges_in};

use graph_rows::edge_row::EdgeTable;
use graph_rows::node_row::NodeTable;
use graph_tables::lookup::brief_of;
use graph_tables::tests::{host_test, port_test, wire_test};
use graph_tables::wiring::no_place;
use memory::state::State;
use node::record::{Edge, NodeId};
use node::refusal::Refusal;

// Whether `node` is one of the host's: 4 where it does not live, 5 where it is a voice's.
#[tactic(auto, using(graph_tables::proofs::Brief::host_brief_lem))]
pub fn host_answer(s: State, nodes: &NodeTable, node: NodeId) -> Result<(), Refusal>
    ensures { result ≡ answer_of (host_test (node_at (take s.nodes (nodes_in nodes.now)) node)) }
{
    host_test(brief_of(nodes, s.nodes, node))
}

// Whether the port `port` of `to` can be disconnected: 4, 5, or 6 where it has no such port.
#[tactic(auto, using(graph_tables::proofs::Brief::port_brief_lem))]
pub fn port_answer(s: State, nodes: &NodeTable, to: NodeId, port: u32) -> Result<(), Refusal>
    ensures { result ≡ answer_of (port_test (node_at (take s.nodes (nodes_in nodes.now)) to) port) }
{
    port_test(brief_of(nodes, s.nodes, to), port)
}

// Whether `e.from` can feed the port `e.port` of `e.to`: 4, 5, 6, or 7 where the edges are as many as there may be.
#[tactic(auto, using(graph_tables::proofs::Brief::wire_brief_lem))]
pub fn wire_answer(s: State, nodes: &NodeTable, edges: &EdgeTable, e: Edge) -> Result<(), Refusal>
    ensures { result ≡ answer_of (wire_test (node_at (take s.nodes (nodes_in nodes.now)) e.from) (node_at (take s.nodes (nodes_in nodes.now)) e.to) e.port (no_place (take s.edges (edges_in edges.now)) e.to e.port)) }
{
    let full = no_place(edges, s.edges, e.to, e.port);
    wire_test(
        brief_of(nodes, s.nodes, e.from),
        brief_of(nodes, s.nodes, e.to),
        e.port,
        full,
    )
}
