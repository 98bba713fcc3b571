ghost use Rattle.std.specs.Prelude.{◌≡◌, false};
ghost use Rattle.node.specs.Node.{new_node};

use crate::name::Name;
use crate::order::LastOrder;

// The ids of nodes and of voices. They are different types, so that a node id never serves as a voice id.
#[derive(Clone, Copy, Default, PartialEq, Eq, PartialOrd, Ord)]
pub struct NodeId(pub u32);

#[derive(Clone, Copy, Default, PartialEq, Eq)]
pub struct VoiceId(pub u64);

// The owner of the host's nodes. Voice ids start at 1; no `Option`, since the words of a node hold the host as 0.
pub const HOST: VoiceId = VoiceId(0);

// A live node, as scope lists it: kind name, ports, required ports (bit p for port p), whether it takes values or
// glides, done flag, level of the last reported block, last order; with its id and the voice that owns it, or HOST. A bus counts here the noise
// sequence of its voices: 0 in a new node.
#[derive(Clone, Copy, Default)]
pub struct Node {
    pub id: NodeId,
    pub owner: VoiceId,
    pub kind: Name,
    pub ports: u32,
    pub required: u64,
    pub takes_values: bool,
    pub takes_glides: bool,
    pub done: bool,
    pub level: f32,
    pub last: LastOrder,
    pub noise: u32,
}

// A new node without ports, which takes no orders: a caller that makes another names the fields that differ.
pub fn new_node(id: NodeId, owner: VoiceId, kind: Name) -> Node
    ensures { result ≡ new_node id owner kind 0 0 false false }
{
    Node {
        id,
        owner,
        kind,
        ports: 0,
        required: 0,
        takes_values: false,
        takes_glides: false,
        done: false,
        level: 0.0,
        last: LastOrder::Nothing,
        noise: 0,
    }
}

// An edge of the graph: the output of `from` feeds the port `port` of `to`.
#[derive(Clone, Copy, Default)]
pub struct Edge {
    pub from: NodeId,
    pub to: NodeId,
    pub port: u32,
}
