//! Values and glides: an order becomes the last one of the node that a voice's parameter names.

ghost use Rattle.std.specs.Prelude.{◌≡◌, ◌+◌};
ghost use Rattle.node.specs.declared.order.LastOrder.TheVariants as last;
ghost use Rattle.graph.specs.Node.{node_at};
ghost use Rattle.voice.specs.Voice.{id};
ghost use Rattle.model.specs.SharedState.{SharedState};
ghost use Rattle.model.specs.Order.{takes};
ghost use Rattle.model.specs.Order as param;
ghost use Rattle.model.specs.Call.{order, ordered};
ghost use Rattle.engine.specs.Called.{Called};
ghost use Rattle.engine.specs.Parts.{store_with, order_outcome, ordered_graph};

use crate::Tables;
use graph::audio_graph::AudioGraph;
use node::name::{Name, name_of};
use node::order::{Glide, LastOrder};
use node::record::{Node, NodeId, VoiceId};
use store::answer::Outcome;
use synthdef::params::param_node;
use voice::voices::Voices;

fn takes(n: &Node, order: LastOrder) -> bool
    ensures { result ≡ takes order n.now }
{
    match order {
        LastOrder::Nothing => false,
        LastOrder::Value(_) => n.takes_values,
        LastOrder::Glide(_) => n.takes_glides,
    }
}

// An order for the node that stands `place` behind the first node of a voice.
fn order_node(graph: &mut AudioGraph, first: NodeId, place: u8, order: LastOrder) -> Outcome
    ensures answer { result ≡ order_outcome (node_at graph.old.nodes (id (first.0 + place))) order }
    ensures graph { graph.new ≡ ordered_graph (node_at graph.old.nodes (id (first.0 + place))) order graph.old }
{
    let Some(n) = graph.node_past(first, u32::from(place)) else {
        return Outcome::NotTaken;
    };
    if !takes(&n, order) {
        return Outcome::NotTaken;
    }
    graph.set_last(n.id, order);
    Outcome::Applied
}

/// An order for the parameter `name` of a voice.
pub(crate) fn order_voice(
    graph: &mut AudioGraph,
    voices: &Voices,
    voice: VoiceId,
    name: Name,
    order: LastOrder,
) -> Outcome
    ensures answer { (d : SharedState) → result ≡ (param.order voice name order voices.now.live (store_with graph.old voices.now d).shared).outcome }
    ensures graph { (d : SharedState) → (store_with graph.new voices.now d).shared ≡ (param.order voice name order voices.now.live (store_with graph.old voices.now d).shared).shared }
{
    let Some(v) = voices.find(voice) else {
        return Outcome::NoVoice;
    };
    let Some(place) = param_node(v.params, name) else {
        return Outcome::NoParameter;
    };
    order_node(graph, v.first, place, order)
}

impl Tables {
    /// A value for the parameter `name` of a voice (SPEC 8.1): applied, or the first that is true of no such voice, no such parameter, a node that
    /// takes no values.
    pub fn set_voice_param(&mut self, voice: VoiceId, name: &[u8], value: f32) -> Outcome
        ensures { Called (order voice name.now (last.Value value)) self.old (ordered result) self.new }
    {
        let order = LastOrder::Value(value);
        order_voice(&mut self.graph, &self.voices, voice, name_of(name), order)
    }

    /// A glide for the parameter `name` of a voice (SPEC 8.1): applied, or the first that is true of no such voice, no such parameter, a node that
    /// takes no glides.
    pub fn set_voice_param_glide(&mut self, voice: VoiceId, name: &[u8], glide: Glide) -> Outcome
        ensures { Called (order voice name.now (last.Glide glide)) self.old (ordered result) self.new }
    {
        let order = LastOrder::Glide(glide);
        order_voice(&mut self.graph, &self.voices, voice, name_of(name), order)
    }
}
