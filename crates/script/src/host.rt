// What the host says of a node that it adds, and of an edge.
ghost use Rattle.std.specs.Prelude.{◌≡◌, ◌/◌, ◌%◌, eqb};
ghost use Rattle.codec.specs.Field.{little};
ghost use Rattle.script.specs.Host.{host_node_at, wire_at};

use crate::name::name_end;
use codec::field::{after, byte_at, long_at, word_at};
use graph::host::HostNode;
use node::record::{Edge, NodeId};

// The id of a node.
pub fn id_at(s: &[u8], at: usize) -> NodeId
    ensures { result.0 ≡ little 4 s.now at }
{
    NodeId(word_at(s, at))
}

// Whether a node takes values, and whether it takes glides: one number holds both, as docs/REPLAY.md has them.
pub fn takes_at(s: &[u8], at: usize) -> (bool, bool)
    ensures { result ≡ (eqb (little 1 s.now at % 2) 1, eqb (little 1 s.now at / 2 % 2) 1) }
{
    let takes = byte_at(s, at);
    (takes % 2 == 1, takes / 2 % 2 == 1)
}

// Behind the kind name at `at`: ports, required ports and what the node takes. Its channels are the generator's.
pub fn host_node_at(s: &[u8], at: usize) -> HostNode
    ensures { result ≡ host_node_at s.now at }
{
    let rest = name_end(s, at);
    let (takes_values, takes_glides) = takes_at(s, after(rest, 12));
    HostNode {
        ports: word_at(s, rest),
        required: long_at(s, after(rest, 4)),
        takes_values,
        takes_glides,
    }
}

pub fn wire_at(s: &[u8], at: usize) -> Edge
    ensures { result ≡ wire_at s.now at }
{
    Edge {
        from: NodeId(word_at(s, at)),
        to: NodeId(word_at(s, after(at, 4))),
        port: word_at(s, after(at, 8)),
    }
}
