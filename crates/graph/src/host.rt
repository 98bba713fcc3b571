ghost use Rattle.std.specs.Prelude.{◌≡◌};
ghost use Rattle.graph.specs.Node.{host_node, with_id};

use node::name::name_of;
use node::record::{HOST, Node, NodeId, new_node};

// What the host says of a node that it adds, beside its kind: how many ports it has, which of them must be connected (bit p
// for port p), and whether it takes values and glides.
#[derive(Clone, Copy)]
pub struct HostNode {
    pub ports: u32,
    pub required: u64,
    pub takes_values: bool,
    pub takes_glides: bool,
}

// A new node of the host, under the id `id`.
pub fn host_node(id: NodeId, kind: &[u8], n: HostNode) -> Node
    ensures { result ≡ with_id id.0 (host_node kind.now n.ports n.required n.takes_values n.takes_glides) }
{
    Node {
        ports: n.ports,
        required: n.required,
        takes_values: n.takes_values,
        takes_glides: n.takes_glides,
        ..new_node(id, HOST, name_of(kind))
    }
}
