// A node's row: its fields one by one, so that a loop reads what it tests; the whole record. A getter of any field would take the
// field's word and say less than a name. The words are a slice and not `NodeTable`: the library for C stores one node in a lent record
// by `put_node`, and a table's length would ask of callers what no row needs. A reader past the end gives what no words stand for, and no Option:
// the definitions read a list with that default, so that any words have a meaning, and with an Option each caller would name it again.
#![tactic(auto, using(words::proofs::Rows::row_is), unfolding(crate::specs::Node::node_of))]

ghost use Rattle.std.specs.Prelude.{◌≡◌, [], get_or, set};
ghost use Rattle.node.specs.Node.{with_noise};
ghost use Rattle.graph_rows.specs.Node.{node_of, nodes_in, Stands, brief};

use node::record::{Node, NodeId, VoiceId};
use words::fields::{
    flag_at, flag_word, float_at, float_word, high_word, last_at, last_words, long_at, low_word,
    name_at, name_words,
};
use words::table::{put_fields, put_row, word_at};

// "512 live nodes", a row of 22 words each.
pub const NODE_WORDS: usize = 11264;

pub type NodeTable = [u32; NODE_WORDS];

// What wiring and the spawns read of a node: whose it is, how many ports it has.
#[derive(Clone, Copy)]
pub struct Brief {
    pub owner: VoiceId,
    pub ports: u32,
}

// The words of a node. Word by word, since the list is the layout: parts put by their places would say it twice.
pub fn node_words(n: Node) -> [u32; 22]
    ensures { Stands n result }
{
    let k = name_words(n.kind);
    let l = last_words(n.last);
    [
        n.id.0,
        low_word(n.owner.0),
        high_word(n.owner.0),
        k[0],
        k[1],
        k[2],
        k[3],
        k[4],
        n.ports,
        low_word(n.required),
        high_word(n.required),
        flag_word(n.takes_values),
        flag_word(n.takes_glides),
        flag_word(n.done),
        float_word(n.level),
        l[0],
        l[1],
        l[2],
        l[3],
        l[4],
        l[5],
        n.noise,
    ]
}

// The node in row `i`; past the end, the node of no words, all 0.
pub fn node_at(t: &[u32], i: usize) -> Node
    ensures { result ≡ get_or (nodes_in t.now) i (node_of []) }
{
    let kind = name_at(t, 22, i, 3);
    Node {
        id: id_at(t, i),
        owner: owner_at(t, i),
        kind,
        ports: ports_at(t, i),
        required: required_at(t, i),
        takes_values: flag_at(t, 22, i, 11),
        takes_glides: flag_at(t, 22, i, 12),
        done: done_at(t, i),
        level: level_at(t, i),
        last: last_at(t, 22, i, 15),
        noise: noise_at(t, i),
    }
}

// Row `i` is the node `n`; past the end nothing is stored.
pub fn put_node(t: &mut [u32], i: usize, n: Node)
    ensures { nodes_in t.new ≡ set (nodes_in t.old) i n }
{
    put_row(t, 22, i, &node_words(n));
}

// The id of the node in row `i`, the voice that owns it, its ports and which of them are required; 0 past the end.
pub fn id_at(t: &[u32], i: usize) -> NodeId
    ensures { result ≡ (get_or (nodes_in t.now) i (node_of [])).id }
{
    NodeId(word_at(t, 22, i, 0))
}

pub fn owner_at(t: &[u32], i: usize) -> VoiceId
    ensures { result ≡ (get_or (nodes_in t.now) i (node_of [])).owner }
{
    VoiceId(long_at(t, 22, i, 1))
}

pub fn ports_at(t: &[u32], i: usize) -> u32
    ensures { result ≡ (get_or (nodes_in t.now) i (node_of [])).ports }
{
    word_at(t, 22, i, 8)
}

pub fn required_at(t: &[u32], i: usize) -> u64
    ensures { result ≡ (get_or (nodes_in t.now) i (node_of [])).required }
{
    long_at(t, 22, i, 9)
}

pub fn done_at(t: &[u32], i: usize) -> bool
    ensures { result ≡ (get_or (nodes_in t.now) i (node_of [])).done }
{
    flag_at(t, 22, i, 13)
}

pub fn level_at(t: &[u32], i: usize) -> f32
    ensures { result ≡ (get_or (nodes_in t.now) i (node_of [])).level }
{
    float_at(t, 22, i, 14)
}

// The noise sequence of the node in row `i`: the number that its next voice gets.
pub fn noise_at(t: &[u32], i: usize) -> u32
    ensures { result ≡ (get_or (nodes_in t.now) i (node_of [])).noise }
{
    word_at(t, 22, i, 21)
}

// The noise sequence of the node in row `i` is `k`: only its word is stored, and past the end none.
pub fn put_noise(t: &mut [u32], i: usize, k: u32)
    ensures { nodes_in t.new ≡ set (nodes_in t.old) i (with_noise k (get_or (nodes_in t.old) i (node_of []))) }
{
    put_fields(t, 22, i, 21, &[k]);
}

// What wiring reads of the node in row `i`.
pub fn brief_at(t: &[u32], i: usize) -> Brief
    ensures { result ≡ brief (get_or (nodes_in t.now) i (node_of [])) }
{
    Brief {
        owner: owner_at(t, i),
        ports: ports_at(t, i),
    }
}
