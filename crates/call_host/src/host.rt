// A refusal is handed on by `refuse` and not by `?`, since the state goes with every answer.
ghost use Rattle.model.specs.Call.{add_node, remove_node, connect, disconnect, set_sink};
ghost use Rattle.memory.specs.View.{Memory};
ghost use Rattle.memory.specs.Lent.{lent_nodes, lent_graph};
ghost use Rattle.memory.specs.Called.{Called, Kept, answered, add_answered};

use crate::refusals::{host_answer, port_answer, wire_answer};
use graph::host::{HostNode, host_node};
use graph::tests::is_bad_kind;
use graph_rows::edge_row::EdgeTable;
use graph_rows::node_row::NodeTable;
use graph_tables::lookup::{append_node, node_count};
use graph_tables::wiring::{drop_port, put_edge};
use memory::parts::with_graph;
use memory::state::{CallResult, State, refuse};
use node::record::{Edge, NodeId};
use node::refusal::Refusal;

// The host adds a node, of a kind name of 1 to 16 bytes and up to 64 ports.
pub fn add_node(
    s: State,
    nodes: &mut NodeTable,
    kind: &[u8],
    n: HostNode,
) -> CallResult<Result<NodeId, Refusal>>
    ensures is { (m : Memory) → Called (add_node kind.now n.ports n.required n.takes_values n.takes_glides) (lent_nodes s nodes.old m) (add_answered result.answer) (lent_nodes result.state nodes.new m) }
    ensures same { (m : Memory) → Kept (add_answered result.answer) (lent_nodes s nodes.old m) (lent_nodes result.state nodes.new m) }
{
    if is_bad_kind(kind, n) {
        return refuse(s, Refusal::PortOrKind);
    }
    if node_count(nodes, s.nodes) >= 512 {
        return refuse(s, Refusal::TableFull);
    }
    let Ok(next) = u32::try_from(s.next) else {
        return refuse(s, Refusal::IdsUsedUp);
    };
    let id = NodeId(next);
    let count = append_node(nodes, s.nodes, host_node(id, kind, n));
    CallResult {
        state: with_graph(s, count, s.edges, s.sink, s.next + 1),
        answer: Ok(id),
    }
}

// The host removes one of its nodes, with its edges.
pub fn remove_node(
    s: State,
    nodes: &mut NodeTable,
    edges: &mut EdgeTable,
    node: NodeId,
) -> CallResult<Result<(), Refusal>>
    ensures is { (m : Memory) → Called (remove_node node) (lent_graph s nodes.old edges.old m) (answered result.answer) (lent_graph result.state nodes.new edges.new m) }
    ensures same { (m : Memory) → Kept (answered result.answer) (lent_graph s nodes.old edges.old m) (lent_graph result.state nodes.new edges.new m) }
{
    if let Err(why) = host_answer(s, nodes, node) {
        return refuse(s, why);
    }
    let left = graph_tables::removal::remove_node(nodes, s.nodes, edges, s.edges, s.sink, node);
    CallResult {
        state: with_graph(s, left.nodes, left.edges, left.sink, s.next),
        answer: Ok(()),
    }
}

// The output of `e.from` feeds the port `e.port` of `e.to`, in the place of what fed it.
pub fn connect(
    s: State,
    nodes: &NodeTable,
    edges: &mut EdgeTable,
    e: Edge,
) -> CallResult<Result<(), Refusal>>
    ensures is { (m : Memory) → Called (connect e.from e.to e.port) (lent_graph s nodes.now edges.old m) (answered result.answer) (lent_graph result.state nodes.now edges.new m) }
    ensures same { (m : Memory) → Kept (answered result.answer) (lent_graph s nodes.now edges.old m) (lent_graph result.state nodes.now edges.new m) }
{
    if let Err(why) = wire_answer(s, nodes, edges, e) {
        return refuse(s, why);
    }
    let count = put_edge(edges, s.edges, e);
    CallResult {
        state: with_graph(s, s.nodes, count, s.sink, s.next),
        answer: Ok(()),
    }
}

// Nothing feeds the port `port` of `to` any more.
pub fn disconnect(
    s: State,
    nodes: &NodeTable,
    edges: &mut EdgeTable,
    to: NodeId,
    port: u32,
) -> CallResult<Result<(), Refusal>>
    ensures is { (m : Memory) → Called (disconnect to port) (lent_graph s nodes.now edges.old m) (answered result.answer) (lent_graph result.state nodes.now edges.new m) }
    ensures same { (m : Memory) → Kept (answered result.answer) (lent_graph s nodes.now edges.old m) (lent_graph result.state nodes.now edges.new m) }
{
    if let Err(why) = port_answer(s, nodes, to, port) {
        return refuse(s, why);
    }
    let count = drop_port(edges, s.edges, to, port);
    CallResult {
        state: with_graph(s, s.nodes, count, s.sink, s.next),
        answer: Ok(()),
    }
}

// The host hears `node`.
pub fn set_sink(s: State, nodes: &NodeTable, node: NodeId) -> CallResult<Result<(), Refusal>>
    ensures is { (m : Memory) → Called (set_sink node) (lent_nodes s nodes.now m) (answered result.answer) (lent_nodes result.state nodes.now m) }
    ensures same { (m : Memory) → Kept (answered result.answer) (lent_nodes s nodes.now m) (lent_nodes result.state nodes.now m) }
{
    if let Err(why) = host_answer(s, nodes, node) {
        return refuse(s, why);
    }
    CallResult {
        state: with_graph(s, s.nodes, s.edges, Some(node), s.next),
        answer: Ok(()),
    }
}
