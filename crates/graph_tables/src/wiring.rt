// Each lent table and its count are parameters of their own: a signature shows what a call may touch.
ghost use Rattle.std.specs.Prelude.{◌≡◌, [], length, take, get_or, position};
ghost use Rattle.words.specs.Place.{Holds};
ghost use Rattle.edges.specs.Wiring.{ends_at, taken, no_place, drop_at, put};
ghost use Rattle.graph_rows.specs.Edge.{edge_of, edges_in};

use graph_rows::edge_row::{EdgeTable, edge_words, port_at, to_at};
use node::record::{Edge, NodeId};
use words::table::{append_row, close_gaps, first_row, row_count};

// How many edges there are.
pub fn edge_count(edges: &EdgeTable, count: usize) -> usize
    ensures { result ≡ length (take count (edges_in edges.now)) }
{
    row_count(edges, 3, count)
}

// Whether the edge in row `i` ends at the port `port` of `node`.
pub fn ends_at(t: &[u32], i: usize, node: NodeId, port: u32) -> bool
    ensures { result ≡ ends_at node port (get_or (edges_in t.now) i (edge_of [])) }
{
    to_at(t, i) == node && port_at(t, i) == port
}

// The row of the first edge at the port `port` of `node`, or none.
fn row_of(edges: &EdgeTable, count: usize, node: NodeId, port: u32) -> Option<usize>
    ensures { result ≡ position (ends_at node port) (take count (edges_in edges.now)) }
{
    first_row(edges, 3, count, |t, i| ends_at(t, i, node, port))
}

// Whether an edge ends at the port `port` of `node`.
pub(crate) fn is_taken(edges: &EdgeTable, count: usize, node: NodeId, port: u32) -> bool
    ensures { result ≡ taken (take count (edges_in edges.now)) node port }
{
    row_of(edges, count, node, port).is_some()
}

// Whether an edge to that port has no place.
pub fn no_place(edges: &EdgeTable, count: usize, node: NodeId, port: u32) -> bool
    ensures { result ≡ no_place (take count (edges_in edges.now)) node port }
{
    1024 <= edge_count(edges, count) && !is_taken(edges, count, node, port)
}

// The edge at the port `port` of `node` is removed, and the gap is closed: how many are left. Never inlined: among the fields of a state, which are all
// kept in registers or on the stack, its loop took 1.6 times the instructions (measured).
#[inline(never)]
pub fn drop_port(edges: &mut EdgeTable, count: usize, node: NodeId, port: u32) -> usize
    ensures { Holds (edges_in edges.new) result (drop_at (take count (edges_in edges.old)) node port) }
{
    let first = row_of(edges, count, node, port).unwrap_or(count);
    close_gaps(edges, 3, first, count, |t, i| !ends_at(t, i, node, port))
}

// Connecting, with no look at the nodes: the edge at that port is dropped, and this one appended if it has a place. How many
// there are.
pub fn put_edge(edges: &mut EdgeTable, count: usize, e: Edge) -> usize
    ensures { Holds (edges_in edges.new) result (put (take count (edges_in edges.old)) e) }
{
    let left = drop_port(edges, count, e.to, e.port);
    append_row(edges, 3, left, &edge_words(e))
}
