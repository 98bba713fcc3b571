ghost use Rattle.std.specs.Prelude.{◌≡◌};
ghost use Rattle.synthdef.specs.Instance.{id_after, live_node, live_edge};

use crate::def::{DefEdge, DefNode};
use node::record::{Edge, Node, NodeId, VoiceId, new_node};

// The id that stands `place` after `first`, or the last id where the ids end before it.
pub fn id_after(first: NodeId, place: u8) -> NodeId
    ensures { result ≡ id_after first place }
{
    NodeId(first.0.saturating_add(u32::from(place)))
}

// A node of a definition as a live node of a voice: its done flag clear, its level 0, and no order taken.
pub fn live_node(n: DefNode, id: NodeId, owner: VoiceId) -> Node
    ensures { result ≡ live_node n id owner }
{
    Node {
        ports: u32::from(n.ports),
        required: u64::from(n.required),
        takes_values: n.takes_values,
        takes_glides: n.takes_glides,
        ..new_node(id, owner, n.kind)
    }
}

// An edge of a definition between the live nodes of a voice, the first of which has the id `first`.
pub fn live_edge(e: DefEdge, first: NodeId) -> Edge
    ensures { result ≡ live_edge e first }
{
    Edge {
        from: id_after(first, e.from),
        to: id_after(first, e.to),
        port: u32::from(e.port),
    }
}
