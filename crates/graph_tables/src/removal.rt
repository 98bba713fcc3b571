// Each lent table and its count are parameters of their own: a signature shows what a call may touch.
// A loop goes by the numbers of rows: a row is so many words of a lent table, and there is no slice of rows.
ghost use Rattle.std.specs.Prelude.{◌≡◌, Bool, not, take};
ghost use Rattle.lists.specs.Find.{filter_o};
ghost use Rattle.node.specs.declared.record.Node.{Node};
ghost use Rattle.words.specs.Place.{Holds};
ghost use Rattle.edges.specs.Wiring.{listed, among, touches, drop_touching};
ghost use Rattle.graph.specs.Node.{is_node, owned_by, owned_by_any};
ghost use Rattle.graph_rows.specs.Node.{node_of, nodes_in};
ghost use Rattle.graph_rows.specs.Edge.{edges_in};
ghost use Rattle.graph_tables.specs.Removal.{Tells, Parts, Marked, Removed};

use edges::table::is_listed;
use graph_rows::edge_row::{EdgeTable, edge_at};
use graph_rows::node_row::{NodeTable, id_at, owner_at};
use lists::rows::Table;
use node::record::{Edge, NodeId, VoiceId};
use words::table::{close_gaps, move_row};

// How many nodes and edges are left, and the sink, unless it is removed.
#[derive(Clone, Copy)]
pub struct Left {
    pub nodes: usize,
    pub edges: usize,
    pub sink: Option<NodeId>,
}

// How many nodes are left, and the ids of those that are not: in fixed memory, since there is no heap for a list, with as many places as the
// table of nodes has rows.
#[derive(Clone, Copy)]
struct Parted {
    stay: usize,
    removed: Table<u32, 512>,
}

// The nodes that `goes` tells by id and owner are removed, in one pass that closes the gaps; their ids are given back, in the order of the
// nodes. Not by `close_gaps` of words: in the same pass the ids are gathered, and a test that is a plain `Fn` stores nothing.
fn part<F: Fn(NodeId, VoiceId) -> bool>(nodes: &mut NodeTable, count: usize, goes: F) -> Parted
    requires { F.IsAlwaysCallable goes }
    ensures { (q : Node → Bool) → Tells (F.post goes) q → Parts nodes.old nodes.new count q result }
{
    let n = count.min(nodes.len() / 22);
    let mut stay = 0;
    let mut removed = Table::empty(0);
    for i in 0..n {
        if goes(id_at(nodes, i), owner_at(nodes, i)) {
            removed.push(id_at(nodes, i).0);
        } else {
            move_row(nodes, 22, i, stay);
            stay += 1;
        }
    }
    Parted { stay, removed }
}

// Ids among which others are looked for. Where one of them stands is marked by its remainder, so that mostly the mark says at once whether an id is
// one of them. The marks are an array and no map of the library, since there is no heap.
#[derive(Drop)]
struct Sought<'a> {
    ids: &'a [u32],
    marks: &'a [Option<u16>; 1024],
    ghost marked: { Marked marks.now ids.now },
}

impl<'a> Sought<'a> {
    // Whether `x` is one of them.
    #[tactic(auto, using(crate::proofs::Marks::listed_any))]
    fn has(&self, x: u32) -> bool
        ensures { result ≡ listed self.now.ids.now x }
    {
        let ids = self.ids;
        match self.marks[x as usize % 1024] {
            None => false,
            Some(m) => ids.get(usize::from(m)).is_some_and(|k| *k == x) || ids.contains(&x),
        }
    }

    // Whether the edge starts or ends at one of them.
    fn touched_by(&self, e: Edge) -> bool
        ensures { result ≡ touches self.now.ids.now e }
    {
        self.has(e.from.0) || self.has(e.to.0)
    }
}

// The edges that start or end at one of `ids` are removed: how many are left.
fn drop_touching(edges: &mut EdgeTable, count: usize, ids: &[u32]) -> usize
    ensures { Holds (edges_in edges.new) result (drop_touching (take count (edges_in edges.old)) ids.now) }
{
    // Of several ids with one remainder the last is marked, and one past row 65535 by that row: a mark only says that an id may be there. The marks
    // are made here and lent: a function that gives them back copies them twice (measured).
    let mut marks = [None; 1024];
    for (j, id) in ids.iter().enumerate() {
        marks[*id as usize % 1024] = Some(u16::try_from(j).unwrap_or(u16::MAX));
    }
    let sought = Sought { ids, marks: &marks };
    close_gaps(edges, 3, 0, count, |t, i| !sought.touched_by(edge_at(t, i)))
}

// The sink, or none if it is one of `ids`.
#[tactic(auto, using(crate::proofs::Marks::listed_any))]
fn keep_sink(sink: Option<NodeId>, ids: &[u32]) -> Option<NodeId>
    ensures { result ≡ filter_o (λ k. not (among ids.now k)) sink }
{
    sink.filter(|k| !ids.contains(&k.0))
}

// The nodes that leave are removed, with every edge that touches them, and the sink if it is one of them.
fn remove<F: Fn(NodeId, VoiceId) -> bool>(
    nodes: &mut NodeTable,
    n: usize,
    edges: &mut EdgeTable,
    m: usize,
    sink: Option<NodeId>,
    goes: F,
) -> Left
    requires { F.IsAlwaysCallable goes }
    ensures { (q : Node → Bool) → Tells (F.post goes) q → Removed nodes.old edges.old nodes.new edges.new n m sink q result }
{
    let parted = part(nodes, n, goes);
    let gone = parted.removed.as_slice();
    Left {
        nodes: parted.stay,
        edges: drop_touching(edges, m, gone),
        sink: keep_sink(sink, gone),
    }
}

// The three below differ in the test alone, and each names in its clause which nodes go.

// The node of this id is removed: host removal, once the node is known to be the host's.
pub fn remove_node(
    nodes: &mut NodeTable,
    n: usize,
    edges: &mut EdgeTable,
    m: usize,
    sink: Option<NodeId>,
    id: NodeId,
) -> Left
    ensures { Removed nodes.old edges.old nodes.new edges.new n m sink (is_node id) result }
{
    remove(nodes, n, edges, m, sink, |k, _| k == id)
}

// The nodes of these voices are removed.
pub fn remove_voices(
    nodes: &mut NodeTable,
    n: usize,
    edges: &mut EdgeTable,
    m: usize,
    sink: Option<NodeId>,
    voices: &[u64],
) -> Left
    ensures { Removed nodes.old edges.old nodes.new edges.new n m sink (owned_by_any voices.now) result }
{
    remove(
        nodes,
        n,
        edges,
        m,
        sink,
        |_, owner| is_listed(voices, owner.0),
    )
}

// The nodes of a voice are removed.
pub fn remove_voice(
    nodes: &mut NodeTable,
    n: usize,
    edges: &mut EdgeTable,
    m: usize,
    sink: Option<NodeId>,
    voice: VoiceId,
) -> Left
    ensures { Removed nodes.old edges.old nodes.new edges.new n m sink (owned_by voice) result }
{
    remove(nodes, n, edges, m, sink, |_, owner| owner == voice)
}
