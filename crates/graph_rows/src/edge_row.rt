// An edge's row. The words are a slice and not `EdgeTable`: the library for C stores one edge in a lent record by `set_edge`, and a
// table's length would ask of callers what no row needs. A reader past the end gives what no words stand for, and no Option: the definitions
// read a list with that default, so that any words have a meaning, and with an Option each caller would name it again.
#![tactic(auto, using(words::proofs::Rows::row_is), unfolding(crate::specs::Edge::edge_of))]

ghost use Rattle.std.specs.Prelude.{◌≡◌, [], get_or, set};
ghost use Rattle.graph_rows.specs.Edge.{edge_of, edges_in};

use node::record::{Edge, NodeId};
use words::table::{put_row, word_at};

// "1,024 edges", a row of 3 words each.
pub const EDGE_WORDS: usize = 3072;

pub type EdgeTable = [u32; EDGE_WORDS];

// The edge in row `i`; past the end, the edge of no words, all 0.
pub fn edge_at(t: &[u32], i: usize) -> Edge
    ensures { result ≡ get_or (edges_in t.now) i (edge_of []) }
{
    Edge {
        from: from_at(t, i),
        to: to_at(t, i),
        port: port_at(t, i),
    }
}

// The source of the edge in row `i`, the node and the port at which it ends; 0 past the end. A getter of any field would take the field's word and say
// less than a name.
pub fn from_at(t: &[u32], i: usize) -> NodeId
    ensures { result ≡ (get_or (edges_in t.now) i (edge_of [])).from }
{
    NodeId(word_at(t, 3, i, 0))
}

pub fn to_at(t: &[u32], i: usize) -> NodeId
    ensures { result ≡ (get_or (edges_in t.now) i (edge_of [])).to }
{
    NodeId(word_at(t, 3, i, 1))
}

pub fn port_at(t: &[u32], i: usize) -> u32
    ensures { result ≡ (get_or (edges_in t.now) i (edge_of [])).port }
{
    word_at(t, 3, i, 2)
}

// The words of an edge.
pub fn edge_words(e: Edge) -> [u32; 3]
    ensures { edge_of result ≡ e }
{
    [e.from.0, e.to.0, e.port]
}

// Row `i` is the edge `e`; past the end nothing is stored.
pub fn set_edge(t: &mut [u32], i: usize, e: Edge)
    ensures { edges_in t.new ≡ set (edges_in t.old) i e }
{
    put_row(t, 3, i, &edge_words(e));
}
