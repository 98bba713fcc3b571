//! What a host may ask. Nothing changes.

ghost use Rattle.std.specs.Prelude.{◌≡◌};
ghost use Rattle.graph.specs.Node.{node_at};
ghost use Rattle.model.specs.Call as call;
ghost use Rattle.model.specs.Voice.{voice_level};
ghost use Rattle.engine.specs.Called.{Asked};

use crate::Tables;
use node::record::{Edge, Node, NodeId, VoiceId};
use voice::steal_ring::Steals;
use voice::voices::{Voice, VoiceState};

fn position_of(state: VoiceState) -> Option<u64>
    ensures { result ≡ call.position_of state }
{
    match state {
        VoiceState::Fading(fade) => Some(fade.position),
        VoiceState::Tracked | VoiceState::Loose => None,
    }
}

impl Tables {
    /// The level of a live voice: that of its output's last reported block, from the first sample after its birth on.
    pub(crate) fn level_of(&self, v: &Voice) -> Option<f32>
        ensures { result ≡ voice_level self.now.shared v.now }
    {
        if self.clock <= v.birth {
            return None;
        }
        Some(self.graph.node(v.output)?.level)
    }

    /// The level of a voice (SPEC 11.2): none until the clock passes its birth, none if it does not live.
    pub fn voice_level(&self, voice: VoiceId) -> Option<f32>
        ensures { Asked (call.level voice) self.now (call.known result) }
    {
        let v = self.voices.find(voice)?;
        self.level_of(&v)
    }

    /// How far a voice's fade has come, in samples (SPEC 10.2): none if it does not fade.
    pub fn fade_position(&self, voice: VoiceId) -> Option<u64>
        ensures { Asked (call.position voice) self.now (call.reached result) }
    {
        position_of(self.voices.find(voice)?.state)
    }

    /// The record of a live voice.
    pub fn voice(&self, voice: VoiceId) -> Option<Voice>
        ensures { Asked (call.voice voice) self.now (call.found result) }
    {
        self.voices.find(voice)
    }

    /// The voice at this place in the order of admission, from 0.
    pub fn voice_at(&self, place: usize) -> Option<Voice>
        ensures { Asked (call.voice_at place) self.now (call.found result) }
    {
        self.voices.as_slice().get(place).copied()
    }

    /// The live voices, in the order of admission.
    pub fn voices(&self) -> &[Voice]
        ensures { Asked call.voices self.now (call.all result.now) }
    {
        self.voices.as_slice()
    }

    /// The steals: how many there were, and the newest 64 records (SPEC 9.5).
    pub fn steals(&self) -> &Steals
        ensures { Asked call.steals self.now (call.stolen result.now) }
    {
        &self.steals
    }

    /// The edges, in the order in which they were put.
    pub fn edges(&self) -> &[Edge]
        ensures { Asked call.edges self.now (call.wires result.now) }
    {
        self.graph.edges()
    }

    /// The processing order of the last prepare that was done (SPEC 5.2).
    pub fn processing_order(&self) -> &[NodeId]
        ensures { Asked call.processing self.now (call.in_order result.now) }
    {
        self.graph.order()
    }

    /// What feeds each of the ports 0 to 63 of a node.
    pub fn sources(&self, node: NodeId) -> [Option<NodeId>; 64]
        ensures { Asked (call.sources node) self.now (call.fed result) }
    {
        self.graph.sources(node)
    }

    /// The clock: the samples rendered so far.
    pub fn clock(&self) -> u64
        ensures { Asked call.clock self.now (call.time result) }
    {
        self.clock
    }

    /// The record of a live node: its last order and its done flag among others.
    pub fn node_record(&self, node: NodeId) -> Option<Node>
        ensures { Asked (call.node_record node) self.now (call.found_node result) }
    {
        self.graph.node(node)
    }

    /// The live nodes, by their ids.
    pub fn nodes(&self) -> &[Node]
        ensures { result.now ≡ self.now.shared.graph.nodes }
    {
        self.graph.nodes()
    }
}
