// Each lent table and its count are parameters of their own: a signature shows what a call may touch.
// A loop goes by the numbers of rows: a row is so many words of a lent table, and there is no slice of rows.
ghost use Rattle.std.specs.Prelude.{◌≡◌, List, [], ◌≤◌, take, get_or, find, option_map};
ghost use Rattle.node.specs.declared.record.NodeId.{NodeId};
ghost use Rattle.node.specs.declared.record.Edge.{Edge};
ghost use Rattle.edges.specs.Ports.{free_port, feeds, sources};
ghost use Rattle.graph_rows.specs.Edge.{edge_of, edges_in};
ghost use Rattle.graph_tables.specs.FedPorts.{FedPorts, node};

use crate::wiring::is_taken;
use graph_rows::edge_row::{EdgeTable, edge_at, from_at, port_at, to_at};
use node::record::{Edge, NodeId};
use words::table::first_row;

// The source of each of the ports 0 to 63 of `node`: one walk over the edges, from the last to the first, so that of two
// edges at one port the first counts. Most edges end elsewhere: of these one word is read.
pub fn sources_of(edges: &EdgeTable, count: usize, node: NodeId) -> [Option<NodeId>; 64]
    ensures { result ≡ sources (take count (edges_in edges.now)) node }
{
    let n = count.min(edges.len() / 3);
    let mut table = [None; 64];
    for i in (0..n).rev() {
        if to_at(edges, i) == node {
            let e = edge_at(edges, i);
            if e.port < 64 {
                table[e.port as usize] = Some(e.from);
            }
        }
    }
    table
}

// Which of the ports 0 to 63 of `node` an edge feeds, a flag for each port: one walk over the edges. Most edges end elsewhere:
// of these one word is read. The ports above 63 share the last flag, which nobody reads. From the last edge on, as the definition folds them.
// Flags and not the options of `sources_of`: who feeds a port is not asked, and of an edge that ends here only the port's word is read.
fn fed_ports(edges: &EdgeTable, count: usize, node: NodeId) -> [bool; 65]
    ensures { FedPorts result (take count (edges_in edges.now)) node }
{
    let n = count.min(edges.len() / 3);
    let mut fed = [false; 65];
    for i in (0..n).rev() {
        if to_at(edges, i) == node {
            fed[port_at(edges, i).min(64) as usize] = true;
        }
    }
    fed
}

// The first of the ports below `ports` that nothing feeds, by the flags of the fed ports.
fn first_unfed(fed: [bool; 65], ports: u32) -> Option<u32>
    requires { ports ≤ 64 }
    ensures { (es : List Edge) (n : NodeId) → FedPorts fed es n → result ≡ free_port es n ports }
{
    let mut port = 0;
    'ports: loop {
        if port == ports {
            break None;
        }
        if fed[port as usize] {
            port += 1;
            continue 'ports;
        }
        break Some(port);
    }
}

// The lowest port of `node` below `ports` without an edge: each port in turn is looked for among all the edges.
fn lowest_port(edges: &EdgeTable, count: usize, node: NodeId, ports: u32) -> Option<u32>
    ensures { result ≡ free_port (take count (edges_in edges.now)) node ports }
{
    (0..ports).find(|p| !is_taken(edges, count, node, *p))
}

// The lowest port of `node` below `ports` without an edge, in one walk over the edges. No node that a call makes has more
// than 64 ports; one that has is searched port by port.
pub fn free_port(edges: &EdgeTable, count: usize, node: NodeId, ports: u32) -> Option<u32>
    ensures { result ≡ free_port (take count (edges_in edges.now)) node ports }
{
    if 64 < ports {
        return lowest_port(edges, count, node, ports);
    }
    first_unfed(fed_ports(edges, count, node), ports)
}

// Whether the edge in row `i` leads from the node of the id `from` to `to`, here and below. The id is a u64 and no option of a `NodeId`: `end_at`
// counts it from a voice's first node, and one past the last id is no node's.
fn leads(t: &[u32], i: usize, from: u64, to: NodeId) -> bool
    ensures { result ≡ feeds (node from) to (get_or (edges_in t.now) i (edge_of [])) }
{
    u64::from(from_at(t, i).0) == from && to_at(t, i) == to
}

// The row of the first edge from the node of the id `from` to `to`, or none.
fn feeding_row(edges: &EdgeTable, count: usize, from: u64, to: NodeId) -> Option<usize>
    ensures { option_map (λ i. get_or (edges_in edges.now) i (edge_of [])) result ≡ find (feeds (node from) to) (take count (edges_in edges.now)) }
{
    first_row(edges, 3, count, |t, i| leads(t, i, from, to))
}

// The first edge from the node of the id `from` to `to`.
pub fn feeding_edge(edges: &EdgeTable, count: usize, from: u64, to: NodeId) -> Option<Edge>
    ensures { result ≡ find (feeds (node from) to) (take count (edges_in edges.now)) }
{
    feeding_row(edges, count, from, to).map(|i| edge_at(edges, i))
}
