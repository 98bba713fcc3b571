// The processing order and prepare (graph.rs of the older program: docs/CRATES.md), on the lent tables: nodes and edges are read where they stand, and the order
// is written to a table of node ids, once nothing is refused. Each lent table and its count are parameters of their own: a signature shows what a call
// may touch. A loop goes by the numbers of rows: a row is so many words of a lent table, and there is no slice of rows.
#![tactic(auto)]

ghost use Rattle.std.specs.Prelude.{◌≡◌, map, ◌≤◌, ◌<◌, min, length, take, get_or};
ghost use Rattle.rank.specs.Names.{row_of};
ghost use Rattle.rank.specs.Order.{upto, arcs};
ghost use Rattle.rank.specs.Parts.{Ranked};
ghost use Rattle.prepare.specs.Parts.{Lived, Rising, Ends, Plugged, RowsIn, rows_lack};
ghost use Rattle.graph_rows.specs.Node.{nodes_in};
ghost use Rattle.graph_rows.specs.Edge.{edges_in};
ghost use Rattle.order_table.specs.Prepares.{Prepares, Lacks};
ghost use Rattle.order_table.specs.Masks.{ports_in, mask_lacks, WithPort};

use graph_rows::edge_row::{EdgeTable, edge_at};
use graph_rows::node_row::{NodeTable, id_at, ports_at, required_at};
use node::refusal::Refusal;
use rank::Ranking;

// "512 live nodes": a node id for each.
pub const ORDER_WORDS: usize = 512;

pub type OrderTable = [u32; ORDER_WORDS];

// The rows of the edges' ends.
type EndTable = [usize; 1024];

// The ids of the live nodes, which rise. A view and not the table: by value this table and those of the edges' ends are copied, which took 2 µs of a
// prepare and 34 KB of its stack.
#[derive(Clone, Copy)]
struct LiveIds<'r> {
    rows: &'r [u32],
    ghost few: { length rows.now ≤ 512 },
    ghost rising: { Rising rows.now },
}

// The rows of the edges' ends, edge by edge: a view too. A slice for each end, and not one of pairs: `rank::ranked` takes each by itself.
#[derive(Clone, Copy)]
struct EdgeRows<'f, 't> {
    from: &'f [usize],
    to: &'t [usize],
    ghost paired: { length from.now ≡ length to.now },
    ghost few: { length to.now ≤ 1024 },
}

// The ids of the nodes' rows up to the first that does not rise are stored in `ids`: how many there are.
fn live_ids(nodes: &NodeTable, count: usize, ids: &mut OrderTable) -> usize
    ensures { Lived ids.new result (take count (nodes_in nodes.now)) }
{
    let n = count.min(ORDER_WORDS);
    let mut least: usize = 0;
    for i in 0..n {
        let x = id_at(nodes, i).0;
        let w = x as usize;
        if w < least {
            return i;
        }
        ids[i] = x;
        least = w + 1;
    }
    n
}

impl LiveIds<'_> {
    // A row for each remainder of an id, 0 where none has it: a guess that `row_of` tests before it halves, so nothing is promised of it. Ids are counted
    // up, so it is mostly right. An array and no map of the library, since there is no heap.
    fn guesses(&self) -> [usize; 1024] {
        let mut rows = [0usize; 1024];
        for (i, x) in self.rows.iter().enumerate() {
            rows[*x as usize % 1024] = i;
        }
        rows
    }

    // The row of the id `x`, by the guess or by halving. Their number where it is none of them, and no option: the definition gives it, and the
    // edges' ends are compared with it.
    fn row_of(&self, x: u32, guess: usize) -> usize
        ensures { result ≡ row_of self.now.rows.now x }
    {
        if self.rows.get(guess) == Some(&x) {
            return guess;
        }
        self.rows.binary_search(&x).unwrap_or(self.rows.len())
    }

    // The rows of the ends of the first `m` edges are stored, edge by edge.
    fn ends(&self, edges: &EdgeTable, m: usize, from: &mut EndTable, to: &mut EndTable)
        requires { m ≤ 1024 }
        ensures { Ends from.new to.new self.now.rows.now (take m (edges_in edges.now)) }
    {
        let rows = self.guesses();
        for i in 0..m {
            let e = edge_at(edges, i);
            from[i] = self.row_of(e.from.0, rows[e.from.0 as usize % 1024]);
            to[i] = self.row_of(e.to.0, rows[e.to.0 as usize % 1024]);
        }
    }

    // Whether one of their nodes, which are the first of the table, lacks a required port.
    fn row_lacks(&self, nodes: &NodeTable, masks: &[u64; 512]) -> bool
        ensures { result ≡ rows_lack (ports_in masks.now) (take (length self.now.rows.now) (nodes_in nodes.now)) 0 }
    {
        let n = self.rows.len();
        (0..n).any(|i| port_lacks(masks[i], ports_at(nodes, i), required_at(nodes, i)))
    }

    // Whether a live node lacks a required port.
    fn lacks(&self, nodes: &NodeTable, ends: &EdgeRows, edges: &EdgeTable) -> bool
        ensures { Lacks (take (length self.now.rows.now) (nodes_in nodes.now)) (length self.now.rows.now) ends.now.from.now ends.now.to.now (take (length ends.now.to.now) (edges_in edges.now)) result }
    {
        let masks = ends.plugged(self, edges);
        self.row_lacks(nodes, &masks)
    }

    // The ids of the ranked rows, written to the order. By the place: `zip` with `iter_mut` tells a proof nothing of what was written (tried here over
    // `order.iter_mut().zip(r.rows.as_slice())`: `returns` stayed open, since nothing is known of the order's words after that loop, and its invariant has
    // no name for them).
    fn named(&self, r: &Ranking, order: &mut OrderTable)
        requires { RowsIn (length self.now.rows.now) r.now }
        ensures { take r.now.rows.count order.new ≡ map (λ x. get_or self.now.rows.now x 0) (take r.now.rows.count r.now.rows.rows) }
    {
        for (i, row) in r.rows.as_slice().iter().enumerate() {
            order[i] = self.rows[*row];
        }
    }
}

impl EdgeRows<'_, '_> {
    // The order of the first `n` rows.
    fn ranking(&self, n: usize) -> Ranking
        ensures { Ranked result (upto (min n 512)) (arcs self.now.from.now self.now.to.now) }
    {
        rank::ranked(n, self.from, self.to)
    }

    // Which ports of each live row one of the edges of two live ends feeds: a mask for each row, in which bit p is port p.
    fn plugged(&self, ids: &LiveIds, edges: &EdgeTable) -> [u64; 512]
        ensures { Plugged (ports_in result) (length ids.now.rows.now) self.now.from.now self.now.to.now (take (length self.now.to.now) (edges_in edges.now)) }
    {
        let n = ids.rows.len();
        let mut masks = [0u64; 512];
        for (i, (f, t)) in self.from.iter().zip(self.to).enumerate() {
            let p = edge_at(edges, i).port as usize;
            if *f < n && *t < n && p < 64 {
                masks[*t] = with_port(masks[*t], p);
            }
        }
        masks
    }
}

// The ports `mask`, and `p` too.
fn with_port(mask: u64, p: usize) -> u64
    requires { p < 64 }
    ensures { WithPort mask p result }
{
    mask | 1 << p
}

// Whether one of the first `ports` ports is required and not in the mask: by all bits at once, of which `asked` has those of these ports. A row may give more
// ports than the 64 that a mask has.
fn port_lacks(mask: u64, ports: u32, required: u64) -> bool
    ensures { result ≡ mask_lacks mask ports required }
{
    let asked = if ports < 64 {
        (1u64 << ports) - 1
    } else {
        u64::MAX
    };
    required & !mask & asked != 0
}

// Prepare's two tests and the order: 13 where a required port of a live node is unconnected, else 14 where there is a cycle
// among live nodes, else the processing order, and how many ids it has.
pub fn prepare(
    nodes: &NodeTable,
    n: usize,
    edges: &EdgeTable,
    m: usize,
    order: &mut OrderTable,
) -> Result<usize, Refusal>
    ensures { Prepares (take n (nodes_in nodes.now)) (take m (edges_in edges.now)) order.old order.new result }
{
    let mut rows = [0u32; ORDER_WORDS];
    let k = live_ids(nodes, n, &mut rows);
    let ids = LiveIds { rows: &rows[..k] };
    let count = m.min(1024);
    let mut from = [0usize; 1024];
    let mut to = [0usize; 1024];
    ids.ends(edges, count, &mut from, &mut to);
    let ends = EdgeRows {
        from: &from[..count],
        to: &to[..count],
    };
    if ids.lacks(nodes, &ends, edges) {
        return Err(Refusal::RequiredPort);
    }
    let r = ends.ranking(k);
    if !r.whole {
        return Err(Refusal::Cycle);
    }
    ids.named(&r, order);
    Ok(r.rows.count)
}
