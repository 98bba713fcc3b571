// Each lent table and its count are parameters of their own: a signature shows what a call may touch.
ghost use Rattle.std.specs.Prelude.{◌≡◌, [], length, take, get_or, option_map};
ghost use Rattle.words.specs.Place.{Holds};
ghost use Rattle.edges.specs.Wiring.{pushed};
ghost use Rattle.graph.specs.Node.{node_limit, node_at, replaced};
ghost use Rattle.graph_rows.specs.Node.{node_of, nodes_in, brief_of};

use graph_rows::node_row::{Brief, NodeTable, brief_at, id_at, node_at, node_words};
use node::record::{Node, NodeId};
use words::table::{append_row, change_rows, first_row, row_count};

// How many nodes live.
pub fn node_count(nodes: &NodeTable, count: usize) -> usize
    ensures { result ≡ length (take count (nodes_in nodes.now)) }
{
    row_count(nodes, 22, count)
}

// The row of the first node of this id among the first `count`, or none.
pub(crate) fn row_of(nodes: &NodeTable, count: usize, id: NodeId) -> Option<usize>
    ensures { option_map (λ i. get_or (nodes_in nodes.now) i (node_of [])) result ≡ node_at (take count (nodes_in nodes.now)) id }
{
    first_row(nodes, 22, count, |t, i| id_at(t, i) == id)
}

// What wiring and the spawns read of the node of an id, if it lives.
pub fn brief_of(nodes: &NodeTable, count: usize, id: NodeId) -> Option<Brief>
    ensures { result ≡ brief_of (node_at (take count (nodes_in nodes.now)) id) }
{
    row_of(nodes, count, id).map(|i| brief_at(nodes, i))
}

// The node of an id, if it lives.
pub fn node_of(nodes: &NodeTable, count: usize, id: NodeId) -> Option<Node>
    ensures { result ≡ node_at (take count (nodes_in nodes.now)) id }
{
    row_of(nodes, count, id).map(|i| node_at(nodes, i))
}

// One node more behind the first `count`, if there is a place: how many there are.
pub fn append_node(nodes: &mut NodeTable, count: usize, n: Node) -> usize
    ensures { Holds (nodes_in nodes.new) result (pushed node_limit (take count (nodes_in nodes.old)) n) }
{
    append_row(nodes, 22, count, &node_words(n))
}

// `n` in the place of each row of its id among the first `count`. No call of the store needs it now; what it promises is kept.
pub fn replace_node(nodes: &mut NodeTable, count: usize, n: Node)
    ensures { take count (nodes_in nodes.new) ≡ replaced (take count (nodes_in nodes.old)) n }
{
    let ws = node_words(n);
    change_rows(
        nodes,
        22,
        count,
        0,
        |t, i| (id_at(t, i) == n.id).then_some(ws),
    );
}
