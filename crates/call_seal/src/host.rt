// The host's nodes, wiring and sink on a board: closed by every seal, before all else that these calls refuse.
// A refusal is handed on by `refuse` and not by `?`, since the state goes with every answer.
// Five functions that begin alike. One that takes the call as a closure was tried: nothing is known of a table that a closure changed, so that
// `returns-clause-is` of `add_node` stayed open. `set_sink` alone changes no table, and would be the one that uses it.
ghost use Rattle.std.specs.Prelude.{List, ℕ};
ghost use Rattle.model.specs.Call.{add_node, remove_node, connect, disconnect, set_sink};
ghost use Rattle.memory.specs.View.{Memory};
ghost use Rattle.memory.specs.Lent.{lent_nodes, lent_graph};
ghost use Rattle.call_console.specs.declared.queues.WishState.{WishState};
ghost use Rattle.call_seal.specs.Board.{board, on_store, BoardCalled, BoardKept, host_answer, node_answer};

use crate::closing::{BoardRefusal, open};
use graph::host::HostNode;
use graph_rows::edge_row::EdgeTable;
use graph_rows::node_row::NodeTable;
use memory::state::{CallResult, State, refuse};
use node::record::{Edge, NodeId};
use node::refusal::Refusal;
use sealed::profile::Seal;

// The host adds a node, unless the board is sealed.
pub fn add_node(
    x: Seal,
    s: State,
    nodes: &mut NodeTable,
    kind: &[u8],
    n: HostNode,
) -> CallResult<Result<NodeId, BoardRefusal<Refusal>>>
    ensures is { (m : Memory) (w : WishState) (c : List ℕ) → BoardCalled (on_store (add_node kind.now n.ports n.required n.takes_values n.takes_glides)) (board (lent_nodes s nodes.old m) w c x) (node_answer result.answer) (board (lent_nodes result.state nodes.new m) w c x) }
    ensures same { (m : Memory) (w : WishState) (c : List ℕ) → BoardKept (node_answer result.answer) (board (lent_nodes s nodes.old m) w c x) (board (lent_nodes result.state nodes.new m) w c x) }
{
    if x.is_some() {
        return refuse(s, BoardRefusal::Closed);
    }
    open(call_host::host::add_node(s, nodes, kind, n))
}

// The host removes one of its nodes, unless the board is sealed.
pub fn remove_node(
    x: Seal,
    s: State,
    nodes: &mut NodeTable,
    edges: &mut EdgeTable,
    node: NodeId,
) -> CallResult<Result<(), BoardRefusal<Refusal>>>
    ensures is { (m : Memory) (w : WishState) (c : List ℕ) → BoardCalled (on_store (remove_node node)) (board (lent_graph s nodes.old edges.old m) w c x) (host_answer result.answer) (board (lent_graph result.state nodes.new edges.new m) w c x) }
    ensures same { (m : Memory) (w : WishState) (c : List ℕ) → BoardKept (host_answer result.answer) (board (lent_graph s nodes.old edges.old m) w c x) (board (lent_graph result.state nodes.new edges.new m) w c x) }
{
    if x.is_some() {
        return refuse(s, BoardRefusal::Closed);
    }
    open(call_host::host::remove_node(s, nodes, edges, node))
}

// The output of `e.from` feeds the port `e.port` of `e.to`, unless the board is sealed.
pub fn connect(
    x: Seal,
    s: State,
    nodes: &NodeTable,
    edges: &mut EdgeTable,
    e: Edge,
) -> CallResult<Result<(), BoardRefusal<Refusal>>>
    ensures is { (m : Memory) (w : WishState) (c : List ℕ) → BoardCalled (on_store (connect e.from e.to e.port)) (board (lent_graph s nodes.now edges.old m) w c x) (host_answer result.answer) (board (lent_graph result.state nodes.now edges.new m) w c x) }
    ensures same { (m : Memory) (w : WishState) (c : List ℕ) → BoardKept (host_answer result.answer) (board (lent_graph s nodes.now edges.old m) w c x) (board (lent_graph result.state nodes.now edges.new m) w c x) }
{
    if x.is_some() {
        return refuse(s, BoardRefusal::Closed);
    }
    open(call_host::host::connect(s, nodes, edges, e))
}

// Nothing feeds the port `port` of `to` any more, unless the board is sealed.
pub fn disconnect(
    x: Seal,
    s: State,
    nodes: &NodeTable,
    edges: &mut EdgeTable,
    to: NodeId,
    port: u32,
) -> CallResult<Result<(), BoardRefusal<Refusal>>>
    ensures is { (m : Memory) (w : WishState) (c : List ℕ) → BoardCalled (on_store (disconnect to port)) (board (lent_graph s nodes.now edges.old m) w c x) (host_answer result.answer) (board (lent_graph result.state nodes.now edges.new m) w c x) }
    ensures same { (m : Memory) (w : WishState) (c : List ℕ) → BoardKept (host_answer result.answer) (board (lent_graph s nodes.now edges.old m) w c x) (board (lent_graph result.state nodes.now edges.new m) w c x) }
{
    if x.is_some() {
        return refuse(s, BoardRefusal::Closed);
    }
    open(call_host::host::disconnect(s, nodes, edges, to, port))
}

// The host hears `node`, unless the board is sealed.
pub fn set_sink(
    x: Seal,
    s: State,
    nodes: &NodeTable,
    node: NodeId,
) -> CallResult<Result<(), BoardRefusal<Refusal>>>
    ensures is { (m : Memory) (w : WishState) (c : List ℕ) → BoardCalled (on_store (set_sink node)) (board (lent_nodes s nodes.now m) w c x) (host_answer result.answer) (board (lent_nodes result.state nodes.now m) w c x) }
    ensures same { (m : Memory) (w : WishState) (c : List ℕ) → BoardKept (host_answer result.answer) (board (lent_nodes s nodes.now m) w c x) (board (lent_nodes result.state nodes.now m) w c x) }
{
    if x.is_some() {
        return refuse(s, BoardRefusal::Closed);
    }
    open(call_host::host::set_sink(s, nodes, node))
}
