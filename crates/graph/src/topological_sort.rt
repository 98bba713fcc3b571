//! The processing order of a graph's nodes: those without a source first, by rising id; then, walking that queue, each target whose last source has
//! been taken, in the order of the edges.

ghost use Rattle.std.specs.Prelude.{◌≡◌, ◌≤◌, ◌<◌, [], map, min, length, take};
ghost use Rattle.lists.specs.Rising.{RisesFrom};
ghost use Rattle.rank.specs.Names.{row_of};
ghost use Rattle.rank.specs.Order.{upto, arcs};
ghost use Rattle.rank.specs.Parts.{Ranked};
ghost use Rattle.prepare.specs.Live.{live_ids};
ghost use Rattle.prepare.specs.Parts.{source_row, target_row, RowsIn, rows_lack};
ghost use Rattle.graph.specs.Sound.{id_of};
ghost use Rattle.graph.specs.Masks.{ports_in, mask_lacks, WithPort};
ghost use Rattle.graph.specs.Sorts.{FedPorts, Sorts, named};

use crate::node_table::node_row;
use arrayvec::ArrayVec;
use node::record::{Edge, Node, NodeId};
use node::refusal::Refusal;
use rank::Ranking;

pub(crate) type OrderTable = ArrayVec<NodeId, 512>;

// The rows of the nodes at one end of each edge.
type EndTable = ArrayVec<usize, 1024>;

// A row for each remainder of an id, 0 where none has it: a guess, which is tested before it is trusted. Ids are counted up, so it is mostly right.
fn guesses(nodes: &[Node]) -> [usize; 1024] {
    let mut rows = [0usize; 1024];
    for (i, n) in nodes.iter().enumerate() {
        rows[n.id.0 as usize % 1024] = i;
    }
    rows
}

// The row of the node of this id, by the guess or by halving; their number where none has it.
fn row_of(nodes: &[Node], id: NodeId, guess: usize) -> usize
    requires { RisesFrom id_of 0 nodes.now }
    ensures { result ≡ row_of (live_ids nodes.now) id.0 }
{
    if guess < nodes.len() && nodes[guess].id.0 == id.0 {
        return guess;
    }
    node_row(nodes, id).unwrap_or(nodes.len())
}

// The ports of the mask, and this one too: bit p stands for port p.
fn with_port(mask: u64, p: usize) -> u64
    requires { p < 64 }
    ensures { WithPort mask p result }
{
    mask | 1 << p
}

// The rows at the ends of each edge, stored in `from` and `to`; and for each row the ports that an edge feeds.
fn find_ends(nodes: &[Node], edges: &[Edge], from: &mut EndTable, to: &mut EndTable) -> [u64; 512]
    requires rises { RisesFrom id_of 0 nodes.now }
    requires few { (length nodes.now ≤ 512) × (length edges.now ≤ 1024) }
    requires none { (from.old.items ≡ []) × (to.old.items ≡ []) }
    ensures from_rows { from.new.items ≡ map (source_row (live_ids nodes.now)) edges.now }
    ensures to_rows { to.new.items ≡ map (target_row (live_ids nodes.now)) edges.now }
    ensures fed { FedPorts result nodes.now edges.now }
{
    let rows = guesses(nodes);
    let n = nodes.len();
    let mut fed = [0u64; 512];
    for e in edges {
        let source = row_of(nodes, e.from, rows[e.from.0 as usize % 1024]);
        let target = row_of(nodes, e.to, rows[e.to.0 as usize % 1024]);
        from.push(source);
        to.push(target);
        if source < n && target < n && e.port < 64 {
            fed[target] = with_port(fed[target], e.port as usize);
        }
    }
    fed
}

// Whether one of the first `ports` ports is required and not fed, by all bits at once.
fn port_lacks(mask: u64, ports: u32, required: u64) -> bool
    ensures { result ≡ mask_lacks mask ports required }
{
    let asked = if ports < 64 {
        (1u64 << ports) - 1
    } else {
        u64::MAX
    };
    required & !mask & asked != 0
}

// Whether a node lacks a required port.
fn row_lacks(nodes: &[Node], fed: &[u64; 512]) -> bool
    requires { length nodes.now ≤ 512 }
    ensures { result ≡ rows_lack (ports_in fed.now) nodes.now 0 }
{
    let n = nodes.len();
    (0..n).any(|i| port_lacks(fed[i], nodes[i].ports, nodes[i].required))
}

// The ids of the ranked rows, in place of the order that was there.
fn name_rows(nodes: &[Node], r: &Ranking, order: &mut OrderTable)
    requires { RowsIn (length nodes.now) r.now }
    ensures { order.new.items ≡ named nodes.now (take r.now.rows.count r.now.rows.rows) }
{
    order.clear();
    for row in r.rows.as_slice() {
        order.push(nodes[*row].id);
    }
}

// Stores the processing order. Refused, and the order stays, with 13 where a required port is not fed, 14 where there is a cycle.
pub(crate) fn topological_sort(
    nodes: &[Node],
    edges: &[Edge],
    order: &mut OrderTable,
) -> Result<(), Refusal>
    requires rises { RisesFrom id_of 0 nodes.now }
    requires few { (length nodes.now ≤ 512) × (length edges.now ≤ 1024) }
    ensures { Sorts nodes.now edges.now order.old.items order.new.items result }
{
    let mut from = EndTable::new();
    let mut to = EndTable::new();
    let fed = find_ends(nodes, edges, &mut from, &mut to);
    if row_lacks(nodes, &fed) {
        return Err(Refusal::RequiredPort);
    }
    let ranking = rank::ranked(nodes.len(), from.as_slice(), to.as_slice());
    if !ranking.whole {
        return Err(Refusal::Cycle);
    }
    name_rows(nodes, &ranking, order);
    Ok(())
}
