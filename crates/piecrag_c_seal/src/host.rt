// The host's nodes, edges and sink: every seal closes them. Exported names with parameters of their own, so that calls that are alike stay
// functions of their own.
ghost use Rattle.std.specs.Prelude.{◌≡◌, List, ℕ};
ghost use Rattle.words.specs.Fields.{is_set};
ghost use Rattle.model.specs.Call as call;
ghost use Rattle.memory.specs.View.{Memory};
ghost use Rattle.memory.specs.Lent.{lent_nodes, lent_graph};
ghost use Rattle.call_console.specs.declared.queues.WishState.{WishState};
ghost use Rattle.call_seal.specs.Board.{board, on_store, node_answer};
ghost use Rattle.state_words.specs.State.{state_in};
ghost use Rattle.seal_words.specs.Seal.{seal_in};
ghost use Rattle.piecrag_c_seal.specs.Board.{BoardExported, BoardTells, added_cell};

use c_answer::answer::settle_result;
use graph::host::HostNode;
use node::record::{Edge, NodeId};
use piecrag::{EdgeTable, NodeTable};
use seal_words::{SealWords, seal_in};
use state_words::{StateWords, state_in};

// A node of the host; `node` becomes its id.
#[unsafe(no_mangle)]
pub extern "C" fn piecrag_add_node(
    seal: &SealWords,
    state: &mut StateWords,
    nodes: &mut NodeTable,
    kind: &[u8],
    ports: u32,
    required: u64,
    values: u32,
    glides: u32,
    node: &mut u32,
) -> u32
    ensures is { (m : Memory) (p : WishState) (c : List ℕ) → BoardExported (on_store (call.add_node kind.now ports required (is_set values) (is_set glides))) (board (lent_nodes (state_in state.old) nodes.old m) p c (seal_in seal.now)) state.old result (board (lent_nodes (state_in state.new) nodes.new m) p c (seal_in seal.now)) state.new }
    ensures cell { (m : Memory) (p : WishState) (c : List ℕ) → BoardTells node_answer (on_store (call.add_node kind.now ports required (is_set values) (is_set glides))) (board (lent_nodes (state_in state.old) nodes.old m) p c (seal_in seal.now)) (λ a. node.new ≡ added_cell a node.old) }
{
    let x = seal_in(seal);
    let s = state_in(state);
    let n = HostNode {
        ports,
        required,
        takes_values: values != 0,
        takes_glides: glides != 0,
    };
    let r = piecrag::board_add_node(x, s, nodes, kind, n);
    *node = r.answer.map_or(*node, |id| id.0);
    settle_result(state, r)
}

#[unsafe(no_mangle)]
pub extern "C" fn piecrag_remove_node(
    seal: &SealWords,
    state: &mut StateWords,
    nodes: &mut NodeTable,
    edges: &mut EdgeTable,
    node: u32,
) -> u32
    ensures { (m : Memory) (p : WishState) (c : List ℕ) → BoardExported (on_store (call.remove_node (record { 0 = node }))) (board (lent_graph (state_in state.old) nodes.old edges.old m) p c (seal_in seal.now)) state.old result (board (lent_graph (state_in state.new) nodes.new edges.new m) p c (seal_in seal.now)) state.new }
{
    let x = seal_in(seal);
    let s = state_in(state);
    let r = piecrag::board_remove_node(x, s, nodes, edges, NodeId(node));
    settle_result(state, r)
}

#[unsafe(no_mangle)]
pub extern "C" fn piecrag_connect(
    seal: &SealWords,
    state: &mut StateWords,
    nodes: &NodeTable,
    edges: &mut EdgeTable,
    from: u32,
    to: u32,
    port: u32,
) -> u32
    ensures { (m : Memory) (p : WishState) (c : List ℕ) → BoardExported (on_store (call.connect (record { 0 = from }) (record { 0 = to }) port)) (board (lent_graph (state_in state.old) nodes.now edges.old m) p c (seal_in seal.now)) state.old result (board (lent_graph (state_in state.new) nodes.now edges.new m) p c (seal_in seal.now)) state.new }
{
    let x = seal_in(seal);
    let s = state_in(state);
    let e = Edge {
        from: NodeId(from),
        to: NodeId(to),
        port,
    };
    let r = piecrag::board_connect(x, s, nodes, edges, e);
    settle_result(state, r)
}

#[unsafe(no_mangle)]
pub extern "C" fn piecrag_disconnect(
    seal: &SealWords,
    state: &mut StateWords,
    nodes: &NodeTable,
    edges: &mut EdgeTable,
    to: u32,
    port: u32,
) -> u32
    ensures { (m : Memory) (p : WishState) (c : List ℕ) → BoardExported (on_store (call.disconnect (record { 0 = to }) port)) (board (lent_graph (state_in state.old) nodes.now edges.old m) p c (seal_in seal.now)) state.old result (board (lent_graph (state_in state.new) nodes.now edges.new m) p c (seal_in seal.now)) state.new }
{
    let x = seal_in(seal);
    let s = state_in(state);
    let r = piecrag::board_disconnect(x, s, nodes, edges, NodeId(to), port);
    settle_result(state, r)
}

#[unsafe(no_mangle)]
pub extern "C" fn piecrag_set_sink(
    seal: &SealWords,
    state: &mut StateWords,
    nodes: &NodeTable,
    node: u32,
) -> u32
    ensures { (m : Memory) (p : WishState) (c : List ℕ) → BoardExported (on_store (call.set_sink (record { 0 = node }))) (board (lent_nodes (state_in state.old) nodes.now m) p c (seal_in seal.now)) state.old result (board (lent_nodes (state_in state.new) nodes.now m) p c (seal_in seal.now)) state.new }
{
    let x = seal_in(seal);
    let s = state_in(state);
    let r = piecrag::board_set_sink(x, s, nodes, NodeId(node));
    settle_result(state, r)
}
