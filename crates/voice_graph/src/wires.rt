// The edges of a new voice. The edges are a lent table and how many of its rows count: each part takes the count and answers the new one.
ghost use Rattle.std.specs.Prelude.{[], ◌∷◌, take};
ghost use Rattle.words.specs.Place.{Holds};
ghost use Rattle.synthdef.specs.Tables.{edge_rows};
ghost use Rattle.synthdef.specs.Instance.{live_edges};
ghost use Rattle.graph.specs.Change.{edge};
ghost use Rattle.graph_rows.specs.Edge.{edges_in};
ghost use Rattle.voice_graph.specs.Added.{put_all, voice_edges};

use graph_rows::edge_row::EdgeTable;
use graph_tables::wiring::{edge_count, put_edge};
use node::record::{Edge, NodeId};
use synthdef::def::{DefEdges, SynthDef};
use synthdef::edges::counted_edges;
use synthdef::instance::{id_after, live_edge};

// The edges of a definition are put, among nodes that have the ids from `first` on: how many edges there are.
fn wire_nodes(edges: &mut EdgeTable, count: usize, first: NodeId, es: DefEdges) -> usize
    ensures { Holds (edges_in edges.new) result (put_all (take count (edges_in edges.old)) (live_edges (edge_rows es) first)) }
{
    let mut k = edge_count(edges, count);
    for e in es.as_slice() {
        k = put_edge(edges, k, live_edge(*e, first));
    }
    k
}

// The edges of a pan are put: the voice's output `from` to port 0 of the pan node, its constant to port 1.
fn wire_pan(
    edges: &mut EdgeTable,
    count: usize,
    from: NodeId,
    constant: NodeId,
    pan: NodeId,
) -> usize
    ensures { Holds (edges_in edges.new) result (put_all (take count (edges_in edges.old)) (edge from pan 0 ∷ edge constant pan 1 ∷ [])) }
{
    let one = put_edge(
        edges,
        count,
        Edge {
            from,
            to: pan,
            port: 0,
        },
    );
    put_edge(
        edges,
        one,
        Edge {
            from: constant,
            to: pan,
            port: 1,
        },
    )
}

// All edges of a voice are put: those that count of its definition, those of its pan, and the one to the port `port` of the bus.
// `pan` is what the wish of the voice says, and no switch.
pub(crate) fn wire_voice(
    edges: &mut EdgeTable,
    count: usize,
    first: NodeId,
    d: SynthDef,
    pan: bool,
    bus: NodeId,
    port: u32,
) -> usize
    ensures { Holds (edges_in edges.new) result (put_all (take count (edges_in edges.old)) (voice_edges first d pan bus port)) }
{
    let n = d.nodes.as_slice().len() as u8;
    let inner = wire_nodes(edges, count, first, counted_edges(d.edges));
    if pan {
        let from = id_after(first, d.output);
        let constant = id_after(first, n);
        let last = id_after(first, n + 1);
        let panned = wire_pan(edges, inner, from, constant, last);
        return put_edge(
            edges,
            panned,
            Edge {
                from: last,
                to: bus,
                port,
            },
        );
    }
    let last = id_after(first, d.output);
    put_edge(
        edges,
        inner,
        Edge {
            from: last,
            to: bus,
            port,
        },
    )
}
