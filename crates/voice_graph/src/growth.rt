ghost use Rattle.std.specs.Prelude.{◌≡◌, length};
ghost use Rattle.synthdef.specs.Tables.{node_rows};
ghost use Rattle.memory.specs.View.{Memory, graph_of, model_of};
ghost use Rattle.memory.specs.Lent.{lent_graph};
ghost use Rattle.voice_graph.specs.Added.{has_room, voice_size, with_fade, with_voice, regraphed};

use crate::kinds::fade_node;
use crate::made::append_voice;
use crate::wires::wire_voice;
use graph_rows::edge_row::EdgeTable;
use graph_rows::node_row::NodeTable;
use graph_tables::lookup::{append_node, node_count};
use graph_tables::wiring::put_edge;
use memory::parts::with_graph;
use memory::state::State;
use node::record::{Edge, NodeId, VoiceId};
use synthdef::def::{DefNodes, SynthDef};

// Whether `n` nodes more find a place and an id each. By differences, which fit: for sums it would be `checked_add` twice, and a case for none.
fn has_room(count: usize, next: u64, n: usize) -> bool
    ensures { result ≡ has_room count next n }
{
    n <= 512 && count <= 512 - n && next <= 4294967296 - n as u64
}

// How many nodes a voice has: its definition's, and where it pans the constant and the pan node.
// Here and below `pan` is what the wish of the voice says, a value and no switch that the code of a caller sets.
fn voice_size(ns: DefNodes, pan: bool) -> usize
    ensures { result ≡ voice_size (length (node_rows ns)) pan }
{
    let n = ns.as_slice().len();
    if pan { n + 2 } else { n }
}

// A fade of the voice `owner` stands in the place of the edge `fed`, between the node that feeds the bus and the port of the bus.
pub fn add_fade(
    s: State,
    nodes: &mut NodeTable,
    edges: &mut EdgeTable,
    owner: VoiceId,
    fed: Edge,
) -> State
    ensures { (m : Memory) → model_of (lent_graph result nodes.new edges.new m) ≡ regraphed (with_fade owner fed.from fed.to fed.port (graph_of (lent_graph s nodes.old edges.old m))) (model_of (lent_graph s nodes.old edges.old m)) }
{
    if !has_room(node_count(nodes, s.nodes), s.next, 1) {
        return s;
    }
    let fade = NodeId(s.next as u32);
    let n = append_node(nodes, s.nodes, fade_node(fade, owner));
    let one = put_edge(
        edges,
        s.edges,
        Edge {
            to: fade,
            port: 0,
            ..fed
        },
    );
    let both = put_edge(edges, one, Edge { from: fade, ..fed });
    with_graph(s, n, both, s.sink, s.next + 1)
}

// The new voice `owner`: its definition's nodes, the constant and the pan node where it pans, their edges, and the edge to the port
// `port` of the bus.
// `d`, `pan`, `bus` and `port` go on to `wire_voice`. A `Wish` would not do for them: it has a rank and a flag that the graph does not ask for, `pan`
// is a test of its pan, and the port is found by a search.
pub fn add_voice(
    s: State,
    nodes: &mut NodeTable,
    edges: &mut EdgeTable,
    owner: VoiceId,
    d: SynthDef,
    pan: bool,
    bus: NodeId,
    port: u32,
) -> State
    ensures { (m : Memory) → model_of (lent_graph result nodes.new edges.new m) ≡ regraphed (with_voice owner d pan bus port (graph_of (lent_graph s nodes.old edges.old m))) (model_of (lent_graph s nodes.old edges.old m)) }
{
    let most = d.nodes.as_slice().len() + 2;
    if !has_room(node_count(nodes, s.nodes), s.next, most) {
        return s;
    }
    let n = append_voice(nodes, s.nodes, s.next, owner, d.nodes, pan);
    let first = NodeId(s.next as u32);
    let e = wire_voice(edges, s.edges, first, d, pan, bus, port);
    let next = s.next + voice_size(d.nodes, pan) as u64;
    with_graph(s, n, e, s.sink, next)
}
