ghost use Rattle.std.specs.Prelude.{◌≡◌, false};
ghost use Rattle.graph.specs.Node.{with_id};
ghost use Rattle.model.specs.Spawn.{voice_node, const_node, pan_node, fade_node};

use node::name::{Name, name_of};
use node::record::{Node, NodeId, VoiceId, new_node};

// A node of a voice that takes no orders.
fn plain_node(id: NodeId, owner: VoiceId, kind: Name, ports: u32, required: u64) -> Node
    ensures { result ≡ with_id id.0 (voice_node owner kind ports required false false) }
{
    Node {
        ports,
        required,
        ..new_node(id, owner, kind)
    }
}

// The three nodes that are no definition's, one call each under the name that the model gives it: one function
// over an enum of the three would match it in as many lines.
pub(crate) fn fade_node(id: NodeId, owner: VoiceId) -> Node
    ensures { result ≡ with_id id.0 (fade_node owner) }
{
    plain_node(id, owner, name_of(b"StealFade"), 1, 1)
}

pub(crate) fn const_node(id: NodeId, owner: VoiceId) -> Node
    ensures { result ≡ with_id id.0 (const_node owner) }
{
    plain_node(id, owner, name_of(b"Const"), 0, 0)
}

pub(crate) fn pan_node(id: NodeId, owner: VoiceId) -> Node
    ensures { result ≡ with_id id.0 (pan_node owner) }
{
    plain_node(id, owner, name_of(b"Pan2"), 2, 1)
}
