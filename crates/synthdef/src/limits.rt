ghost use Rattle.std.specs.Prelude.{◌≡◌, ◌^◌, ◌≤◌, length, map};
ghost use Rattle.synthdef.specs.Rows.{every};
ghost use Rattle.synthdef.specs.Tables.{node_rows, edge_rows};
ghost use Rattle.synthdef.specs.Limits.{port_given, node_allowed, edge_allowed, param_allowed, counts_allowed, arc_of, allowed};
ghost use Rattle.rank.specs.Order.{upto, whole};

use crate::def::{DefEdge, DefEdges, DefNode, DefNodes, NO_PORT, Param, SynthDef};
use crate::edges::counted_edges;
use lists::rows::Table;
use node::name::is_named;
use rank::ranked;

// Whether `port`, given by name, is none or one of the node's ports.
fn port_given(ports: u8, port: u8) -> bool
    ensures { result ≡ port_given ports port }
{
    port == NO_PORT || port < ports
}

fn node_allowed(n: DefNode) -> bool
    ensures { result ≡ node_allowed n }
{
    is_named(n.kind)
        && n.ports <= 8
        && usize::from(n.required) < 1 << n.ports
        && port_given(n.ports, n.in_port)
        && port_given(n.ports, n.level_port)
        && port_given(n.ports, n.amp_port)
}

fn nodes_allowed(nodes: &[DefNode]) -> bool
    ensures { result ≡ every node_allowed nodes.now }
{
    nodes.iter().all(|n| node_allowed(*n))
}

fn edge_allowed(nodes: &[DefNode], e: DefEdge) -> bool
    ensures { result ≡ edge_allowed nodes.now e }
{
    let to = usize::from(e.to);
    usize::from(e.from) < nodes.len() && to < nodes.len() && e.port < nodes[to].ports
}

fn edges_allowed(nodes: &[DefNode], es: &[DefEdge]) -> bool
    ensures { result ≡ every (edge_allowed nodes.now) es.now }
{
    es.iter().all(|e| edge_allowed(nodes, *e))
}

fn param_allowed(n: usize, p: Param) -> bool
    ensures { result ≡ param_allowed n p }
{
    is_named(p.name) && usize::from(p.node) < n
}

fn params_allowed(n: usize, ps: &[Param]) -> bool
    ensures { result ≡ every (param_allowed n) ps.now }
{
    ps.iter().all(|p| param_allowed(n, *p))
}

fn counts_allowed(nodes: usize, edges: usize, params: usize) -> bool
    ensures { result ≡ counts_allowed nodes edges params }
{
    (1..=24).contains(&nodes) && edges <= 48 && params <= 8
}

// Whether the edges `es` among the nodes have no cycle: their processing order has all nodes. A table for each end, and not one of
// pairs: so `ranked` takes them.
fn ordered(nodes: &DefNodes, es: DefEdges) -> bool
    ensures { result ≡ whole (upto (length (node_rows nodes.now))) (map arc_of (edge_rows es)) }
{
    let mut from: Table<usize, 48> = Table::empty(0);
    let mut to: Table<usize, 48> = Table::empty(0);
    for e in es.as_slice() {
        from.push(usize::from(e.from));
        to.push(usize::from(e.to));
    }
    ranked(nodes.as_slice().len(), from.as_slice(), to.as_slice()).whole
}

// Whether a definition is within the limits; refusal 9 where it is not.
pub fn allowed(d: SynthDef) -> bool
    ensures { result ≡ allowed d }
{
    let nodes = d.nodes.as_slice();
    let n = nodes.len();
    counts_allowed(d.nodes.count, d.edges.count, d.params.count)
        && nodes_allowed(nodes)
        && edges_allowed(nodes, d.edges.as_slice())
        && params_allowed(n, d.params.as_slice())
        && usize::from(d.output) < n
        && ordered(&d.nodes, counted_edges(d.edges))
}
