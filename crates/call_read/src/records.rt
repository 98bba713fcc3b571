// The other reading calls: the steals, what feeds a node, a node's record, and the clock.
// Each is a call of docs/CALLS.md: it takes the state, so that a host need not know which count is meant, and says what the model answers.
ghost use Rattle.voice.specs.Steals.{log_of};
ghost use Rattle.model.specs.Call as call;
ghost use Rattle.memory.specs.View.{Memory};
ghost use Rattle.memory.specs.Lent.{lent_state, lent_nodes, lent_edges, lent_steals};
ghost use Rattle.memory.specs.Called.{Called};

use graph_rows::edge_row::EdgeTable;
use graph_rows::node_row::NodeTable;
use graph_tables::lookup::node_of;
use graph_tables::ports::sources_of;
use memory::parts::ring_of;
use memory::state::State;
use node::record::{Node, NodeId};
use steal_log::{StealTable, read_steals};
use voice::steals::Steals;

// The steals: their count, and the newest 64 records.
pub fn steals(s: State, steals: &StealTable) -> Steals
    ensures { (m : Memory) → Called (call.ask call.steals) (lent_steals s steals.now m) (call.stolen (log_of result)) (lent_steals s steals.now m) }
{
    read_steals(steals, ring_of(s))
}

// What feeds each port of a node.
pub fn sources(s: State, edges: &EdgeTable, node: NodeId) -> [Option<NodeId>; 64]
    ensures { (m : Memory) → Called (call.ask (call.sources node)) (lent_edges s edges.now m) (call.fed result) (lent_edges s edges.now m) }
{
    sources_of(edges, s.edges, node)
}

// A node's record, or none: the host reads its last order and its done flag there.
pub fn node_record(s: State, nodes: &NodeTable, node: NodeId) -> Option<Node>
    ensures { (m : Memory) → Called (call.ask (call.node_record node)) (lent_nodes s nodes.now m) (call.found_node (result)) (lent_nodes s nodes.now m) }
{
    node_of(nodes, s.nodes, node)
}

// The samples rendered so far.
pub fn clock(s: State) -> u64
    ensures { (m : Memory) → Called (call.ask call.clock) (lent_state s m) (call.time result) (lent_state s m) }
{
    s.clock
}
