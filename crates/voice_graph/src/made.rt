// The nodes of a new voice. Each part asks for room and ids for its own number of nodes: a type with the table's count, the first id and
// the owner that holds this fact would be made anew, and its fact proved anew, for each of the three.
ghost use Rattle.std.specs.Prelude.{◌≡◌, [], ◌∷◌, ◌++◌, map, ◌+◌, ◌≤◌, length, take};
ghost use Rattle.words.specs.Place.{Holds};
ghost use Rattle.synthdef.specs.Tables.{node_rows};
ghost use Rattle.graph_rows.specs.Node.{nodes_in};
ghost use Rattle.model.specs.Spawn.{def_node, const_node, pan_node};
ghost use Rattle.voice_graph.specs.Added.{numbered, nodes_for, Fits};

use crate::kinds::{const_node, pan_node};
use graph_rows::node_row::NodeTable;
use graph_tables::lookup::{append_node, node_count};
use node::record::{NodeId, VoiceId};
use synthdef::def::DefNodes;
use synthdef::instance::live_node;

// The definition's nodes stand behind the first `count`, under the ids from `first` on: how many nodes there are.
fn append_defined(
    nodes: &mut NodeTable,
    count: usize,
    first: u64,
    owner: VoiceId,
    ns: DefNodes,
) -> usize
    requires { Fits (length (take count (nodes_in nodes.old))) first (length (node_rows ns)) }
    ensures { Holds (nodes_in nodes.new) result (take count (nodes_in nodes.old) ++ numbered first (map (def_node owner) (node_rows ns))) }
{
    let mut k = node_count(nodes, count);
    for (i, n) in ns.as_slice().iter().enumerate() {
        let id = first + i as u64;
        k = append_node(nodes, k, live_node(*n, NodeId(id as u32), owner));
    }
    k
}

// The constant and the pan node: how many nodes there are.
fn append_pan(nodes: &mut NodeTable, count: usize, first: u64, owner: VoiceId) -> usize
    requires { Fits (length (take count (nodes_in nodes.old))) first 2 }
    ensures { Holds (nodes_in nodes.new) result (take count (nodes_in nodes.old) ++ numbered first (const_node owner ∷ pan_node owner ∷ [])) }
{
    let k = append_node(nodes, count, const_node(NodeId(first as u32), owner));
    let next = first + 1;
    append_node(nodes, k, pan_node(NodeId(next as u32), owner))
}

// The nodes of a voice, behind the first `count`, under the ids from `first` on: how many nodes there are.
// `pan` is what the wish of the voice says, and no switch.
pub(crate) fn append_voice(
    nodes: &mut NodeTable,
    count: usize,
    first: u64,
    owner: VoiceId,
    ns: DefNodes,
    pan: bool,
) -> usize
    requires { Fits (length (take count (nodes_in nodes.old))) first (length (node_rows ns) + 2) }
    ensures { Holds (nodes_in nodes.new) result (take count (nodes_in nodes.old) ++ numbered first (nodes_for owner ns pan)) }
{
    let k = append_defined(nodes, count, first, owner, ns);
    if pan {
        let m = ns.as_slice().len();
        return append_pan(nodes, k, first + m as u64, owner);
    }
    k
}
