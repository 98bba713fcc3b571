//! What the host's calls on the graph refuse, each test in the order of the refusals.

ghost use Rattle.std.specs.Prelude.{◌≡◌, ◌^◌, leb};
ghost use Rattle.graph.specs.Refuse.{bad_kind, host_test, port_test, wire_test};
ghost use Rattle.graph.specs.Tables.{answer_of};

use crate::host::HostNode;
use node::name::name_length;
use node::record::Node;
use node::refusal::Refusal;

// Whether a port is required that is none of the node's.
fn requires_beyond(ports: u32, required: u64) -> bool
    ensures { result ≡ leb (2 ^ ports) required }
{
    ports < 64 && required >> ports > 0
}

/// Whether a host node of this kind is refused.
pub fn is_bad_kind(kind: &[u8], n: HostNode) -> bool
    ensures { result ≡ bad_kind kind.now n.ports n.required }
{
    n.ports > 64 || !name_length(kind.len()) || requires_beyond(n.ports, n.required)
}

/// Whether this is a node of the host: 4 where it does not live, 5 where it is a voice's.
pub fn host_test(n: Option<Node>) -> Result<(), Refusal>
    ensures { result ≡ answer_of (host_test n) }
{
    match n {
        None => Err(Refusal::UnknownNode),
        Some(n) if n.owner.0 != 0 => Err(Refusal::VoiceNode),
        Some(_) => Ok(()),
    }
}

/// Whether this is a node of the host that has the port: 4, 5, or 6 where it has not.
pub fn port_test(n: Option<Node>, port: u32) -> Result<(), Refusal>
    ensures { result ≡ answer_of (port_test n port) }
{
    match n {
        None => Err(Refusal::UnknownNode),
        Some(n) if n.owner.0 != 0 => Err(Refusal::VoiceNode),
        Some(n) if n.ports <= port => Err(Refusal::PortOrKind),
        Some(_) => Ok(()),
    }
}

/// Whether the host may connect `a` to the port of `b`: 4, 5, 6, or 7 where the edge has no place.
pub fn wire_test(a: Option<Node>, b: Option<Node>, port: u32, full: bool) -> Result<(), Refusal>
    ensures { result ≡ answer_of (wire_test a b port full) }
{
    let (Some(a), Some(b)) = (a, b) else {
        return Err(Refusal::UnknownNode);
    };
    if a.owner.0 != 0 || b.owner.0 != 0 {
        return Err(Refusal::VoiceNode);
    }
    if b.ports <= port {
        return Err(Refusal::PortOrKind);
    }
    if full {
        Err(Refusal::TableFull)
    } else {
        Ok(())
    }
}
