//! From which node, and into which port, a voice feeds its bus. An id is a `u64` here: counted from a voice's first node it could be past the last
//! id, and then no edge starts there.

ghost use Rattle.std.specs.Prelude.{◌≡◌, find};
ghost use Rattle.edges.specs.Ports.{feeds, port_from};
ghost use Rattle.voice.specs.Voice.{id, feeder, end_of};
ghost use Rattle.model.specs.Page.{port_now};

use node::record::{Edge, NodeId};
use voice::voices::{Voice, VoiceState};

/// The node by which a voice that does not fade feeds its bus: its pan node, else its output.
pub(crate) fn feeder(v: &Voice) -> u64
    ensures { result ≡ (feeder v.now).0 }
{
    if v.panned {
        return u64::from(v.first.0) + u64::from(v.count) + 1;
    }
    u64::from(v.output.0)
}

/// The node by which a voice feeds its bus now: its fade if it fades.
pub(crate) fn end_of(v: &Voice) -> u64
    ensures { result ≡ (end_of v.now).0 }
{
    match v.state {
        VoiceState::Fading(fade) => u64::from(fade.node.0),
        VoiceState::Tracked | VoiceState::Loose => feeder(v),
    }
}

fn feeds(from: u64, to: NodeId, e: &Edge) -> bool
    ensures { result ≡ feeds (id from) to e.now }
{
    u64::from(e.from.0) == from && e.to.0 == to.0
}

/// The first edge from the node `from` to `to`.
pub(crate) fn feeding_edge(edges: &[Edge], from: u64, to: NodeId) -> Option<Edge>
    ensures { result ≡ find (feeds (id from) to) edges.now }
{
    edges.iter().find(|e| feeds(from, to, e)).copied()
}

/// The port of `to` that the node `from` feeds.
pub(crate) fn port_from(edges: &[Edge], from: u64, to: NodeId) -> Option<u32>
    ensures { result ≡ port_from edges.now (id from) to }
{
    edges.iter().find(|e| feeds(from, to, e)).map(|e| e.port)
}

/// The port of its bus that a voice feeds now.
pub(crate) fn port_now(edges: &[Edge], v: &Voice) -> Option<u32>
    ensures { result ≡ port_now edges.now v.now }
{
    port_from(edges, end_of(v), v.bus)
}
