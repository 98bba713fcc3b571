//! The edges of a graph: rows in the order in which they were put, one at most for a port of a node.

ghost use Rattle.std.specs.Prelude.{ℕ, ◌≡◌, ◌≤◌, ◌<◌, ◌+◌, None, false, length, take, find};
ghost use Rattle.std.specs.List.{position};
ghost use Rattle.lists.specs.Lone.{Lone};
ghost use Rattle.lists.specs.Member.{In};
ghost use Rattle.lists.specs.Rising.{RisesFrom};
ghost use Rattle.graph.specs.Sound.{itself};
ghost use Rattle.edges.specs.Ports.{free_port, feeds, port_from, sources};
ghost use Rattle.edges.specs.Wiring.{ends_at, no_place, drop_at, wired, listed, touches, drop_touching};
ghost use Rattle.graph.specs.Taken.{TakenBelow};
ghost use Rattle.graph.specs.Grown.{wired_all};

use arrayvec::ArrayVec;
use node::record::{Edge, NodeId};

pub(crate) type EdgeTable = ArrayVec<Edge, 1024>;

// By reference, so that the port is read only where the node is the one.
fn ends_at(to: NodeId, port: u32, e: &Edge) -> bool
    ensures { result ≡ ends_at to port e.now }
{
    e.to.0 == to.0 && e.port == port
}

// Where the edge at this port stands.
pub(crate) fn edge_row(edges: &[Edge], to: NodeId, port: u32) -> Option<usize>
    ensures { result ≡ position (ends_at to port) edges.now }
{
    edges.iter().position(|e| ends_at(to, port, e))
}

// Whether the table is full and no edge goes to make room.
pub(crate) fn no_place(edges: &EdgeTable, row: Option<usize>, to: NodeId, port: u32) -> bool
    requires { row ≡ position (ends_at to port) edges.now.items }
    ensures { result ≡ no_place edges.now.items to port }
{
    edges.is_full() && row.is_none()
}

// Drops the edge at this port, which stands at `row`.
pub(crate) fn drop_edge(edges: &mut EdgeTable, row: Option<usize>, to: NodeId, port: u32)
    requires lone { Lone (ends_at to port) edges.old.items }
    requires found { row ≡ position (ends_at to port) edges.old.items }
    ensures { edges.new.items ≡ drop_at edges.old.items to port }
{
    if let Some(at) = row {
        edges.remove(at);
    }
}

// Puts an edge in place of the one at its port, which stands at `row`.
pub(crate) fn put_edge(edges: &mut EdgeTable, row: Option<usize>, e: Edge)
    requires lone { Lone (ends_at e.to e.port) edges.old.items }
    requires found { row ≡ position (ends_at e.to e.port) edges.old.items }
    requires small { length edges.old.items ≤ 1024 }
    requires room { no_place edges.old.items e.to e.port ≡ false }
    ensures { edges.new.items ≡ wired edges.old.items e }
{
    drop_edge(edges, row, e.to, e.port);
    edges.push(e);
}

// Puts an edge at a port at which no row before `old` ends.
fn put_behind(edges: &mut EdgeTable, old: usize, e: Edge)
    requires lone { Lone (ends_at e.to e.port) edges.old.items }
    requires inside { old ≤ length edges.old.items }
    requires fresh { find (ends_at e.to e.port) (take old edges.old.items) ≡ None }
    requires room { length edges.old.items < 1024 }
    ensures { edges.new.items ≡ wired edges.old.items e }
{
    let row = edge_row(&edges.as_slice()[old..], e.to, e.port).map(|at| old + at);
    put_edge(edges, row, e);
}

// Puts edges to nodes whose ids are not below `next`, where no edge ends at those.
pub(crate) fn put_new(edges: &mut EdgeTable, es: &[Edge], next: u64)
    requires lone { (b : NodeId) → (p : ℕ) → Lone (ends_at b p) edges.old.items }
    requires below { (d : Edge) → In d edges.old.items → d.to.0 < next }
    requires above { (d : Edge) → In d es.now → next ≤ d.to.0 }
    requires room { length edges.old.items + length es.now ≤ 1024 }
    ensures { edges.new.items ≡ wired_all edges.old.items es.now }
{
    let old = edges.len();
    for e in es {
        put_behind(edges, old, *e);
    }
}

pub(crate) fn is_listed(ids: &[u32], x: u32) -> bool
    ensures { result ≡ listed ids.now x }
{
    ids.contains(&x)
}

fn touches(ids: &[u32], e: Edge) -> bool
    ensures { result ≡ touches ids.now e }
{
    is_listed(ids, e.from.0) || is_listed(ids, e.to.0)
}

// Drops the edges that start or end at one of these ids.
pub(crate) fn drop_touching(edges: &mut EdgeTable, ids: &[u32])
    ensures { edges.new.items ≡ drop_touching edges.old.items ids.now }
{
    edges.retain(|e| !touches(ids, *e));
}

// Whether `x` is one of these ids, by halving, where they rise.
fn is_among(ids: &[u32], x: u32) -> bool
    ensures { RisesFrom itself 0 ids.now → result ≡ listed ids.now x }
{
    let at = ids.partition_point(|k| *k < x);
    at < ids.len() && ids[at] == x
}

fn touches_rising(ids: &[u32], e: &Edge) -> bool
    ensures { RisesFrom itself 0 ids.now → result ≡ touches ids.now e.now }
{
    is_among(ids, e.from.0) || is_among(ids, e.to.0)
}

// Drops the edges that start or end at one of these ids, which rise.
pub(crate) fn drop_touching_rising(edges: &mut EdgeTable, ids: &[u32])
    requires { RisesFrom itself 0 ids.now }
    ensures { edges.new.items ≡ drop_touching edges.old.items ids.now }
{
    edges.retain(|e| !touches_rising(ids, e));
}

// Which of the ports 0 to 63 of the node have an edge.
fn taken_ports(edges: &[Edge], to: NodeId) -> [bool; 64]
    ensures { TakenBelow 64 edges.now to result }
{
    let mut taken = [false; 64];
    for e in edges {
        if e.to.0 == to.0 && e.port < 64 {
            taken[e.port as usize] = true;
        }
    }
    taken
}

// The lowest port without an edge, in one walk over the edges.
pub(crate) fn lowest_port(edges: &[Edge], to: NodeId, ports: u32) -> Option<u32>
    requires { ports ≤ 64 }
    ensures { result ≡ free_port edges.now to ports }
{
    let taken = taken_ports(edges, to);
    let mut port = 0;
    'ports: loop {
        if port == ports {
            break None;
        }
        if taken[port as usize] {
            port += 1;
            continue 'ports;
        }
        break Some(port);
    }
}

// By reference, so that the target is read only where the source is the one.
fn feeds(from: NodeId, to: NodeId, e: &Edge) -> bool
    ensures { result ≡ feeds from to e.now }
{
    e.from.0 == from.0 && e.to.0 == to.0
}

// The port of the first edge from the one node to the other.
pub(crate) fn port_from(edges: &[Edge], from: NodeId, to: NodeId) -> Option<u32>
    ensures { result ≡ port_from edges.now from to }
{
    edges.iter().find(|e| feeds(from, to, e)).map(|e| e.port)
}

// What feeds each of the ports 0 to 63 of the node, in one walk over the edges.
pub(crate) fn sources(edges: &[Edge], to: NodeId) -> [Option<NodeId>; 64]
    ensures { result ≡ sources edges.now to }
{
    let mut fed = [None; 64];
    for e in edges {
        if e.to.0 == to.0 && e.port < 64 {
            let port = e.port as usize;
            if fed[port].is_none() {
                fed[port] = Some(e.from);
            }
        }
    }
    fed
}
