//! What a new voice and a fade put into the graph: their nodes and edges.

ghost use Rattle.std.specs.Prelude.{◌≡◌, ◌+◌, ◌≤◌, Some};
ghost use Rattle.voice.specs.Voice.{new_fade};
ghost use Rattle.model.specs.Spawn.{pans, new_voice, voice_nodes, const_node, pan_node, fade_node};
ghost use Rattle.model.specs.Model.{instantiate, port_free};
ghost use Rattle.model.specs.Wish.{spawn_in};
ghost use Rattle.engine.specs.Spawning.{Headroom, FadeRoom, answer_in, inner_edges, outer_edge, steal};

use crate::Tables;
use crate::feeding::{feeder, feeding_edge};
use arrayvec::ArrayVec;
use node::name::name_of;
use node::record::{Edge, Node, NodeId, VoiceId, new_node};
use node::refusal::Refusal;
use store::wish::Wish;
use synthdef::def::SynthDef;
use synthdef::edges::counted_edges;
use synthdef::instance::{id_after, live_edge, live_node};
use synthdef::plan::done_plan;
use voice::voices::{Fade, Voice, VoiceState};

// A definition's nodes, the constant and the pan node.
type NewNodes = ArrayVec<Node, 26>;

// A definition's edges, and the two to the pan node.
type NewEdges = ArrayVec<Edge, 50>;

// The nodes of the store's own kinds. An id is given where they are put in.
fn const_node(owner: VoiceId) -> Node
    ensures { result ≡ const_node owner }
{
    new_node(NodeId(0), owner, name_of(b"Const"))
}

fn pan_node(owner: VoiceId) -> Node
    ensures { result ≡ pan_node owner }
{
    Node {
        ports: 2,
        required: 1,
        ..new_node(NodeId(0), owner, name_of(b"Pan2"))
    }
}

fn fade_node(owner: VoiceId) -> Node
    ensures { result ≡ fade_node owner }
{
    Node {
        ports: 1,
        required: 1,
        ..new_node(NodeId(0), owner, name_of(b"StealFade"))
    }
}

// Whether a pan position asks for a pan node.
fn pans(pan: f32) -> bool
    ensures { result ≡ pans pan }
{
    pan != 0.0
}

fn voice_nodes(owner: VoiceId, def: &SynthDef, pan: bool) -> NewNodes
    ensures { result.items ≡ voice_nodes owner def.now pan }
{
    let mut nodes = NewNodes::new();
    for n in def.nodes.as_slice() {
        nodes.push(live_node(*n, NodeId(0), owner));
    }
    if pan {
        nodes.push(const_node(owner));
        nodes.push(pan_node(owner));
    }
    nodes
}

// The edges between the nodes of a voice, which have the ids from `first` on: the last of the definition's to each port, and those of its pan.
fn inner_edges(first: NodeId, def: &SynthDef, pan: bool) -> NewEdges
    ensures { result.items ≡ inner_edges first def.now pan }
{
    let mut edges = NewEdges::new();
    for e in counted_edges(def.edges).as_slice() {
        edges.push(live_edge(*e, first));
    }
    if pan {
        let n = def.nodes.as_slice().len() as u8;
        let to = id_after(first, n + 1);
        edges.push(Edge {
            from: id_after(first, def.output),
            to,
            port: 0,
        });
        edges.push(Edge {
            from: id_after(first, n),
            to,
            port: 1,
        });
    }
    edges
}

// The edge of a voice to its port of the bus.
fn outer_edge(first: NodeId, def: &SynthDef, pan: bool, bus: NodeId, port: u32) -> Edge
    ensures { result ≡ outer_edge first def.now pan bus port }
{
    let place = if pan {
        def.nodes.as_slice().len() as u8 + 1
    } else {
        def.output
    };
    Edge {
        from: id_after(first, place),
        to: bus,
        port,
    }
}

impl Tables {
    // The record of the new voice, which gets the noise sequence of its bus.
    fn new_voice(&self, id: VoiceId, wish: &Wish, state: VoiceState, port: u32) -> Voice
        requires ids { self.now.shared.graph.next + wish.now.def.nodes.count + 2 ≤ 4294967296 }
        requires next { id.0 ≡ self.now.shared.spawned + 1 }
        requires within { Headroom wish.now.def self.now }
        ensures { result ≡ new_voice (spawn_in wish.now) state port self.now.shared }
    {
        let first = NodeId(self.graph.next_id() as u32);
        Voice {
            id,
            birth: self.clock,
            bus: wish.bus,
            port,
            first,
            count: wish.def.nodes.as_slice().len() as u32,
            output: id_after(first, wish.def.output),
            panned: pans(wish.pan),
            sequence: self.graph.node(wish.bus).map_or(0, |n| n.noise),
            rank: wish.rank,
            state,
            params: wish.def.params,
            plan: done_plan(wish.def),
        }
    }

    // The new voice stands on the port `port` of its bus.
    pub(crate) fn seat_voice(
        &mut self,
        wish: &Wish,
        state: VoiceState,
        port: u32,
    ) -> Result<VoiceId, Refusal>
        requires room { Headroom wish.now.def self.old }
        requires free { port_free wish.now.bus self.old ≡ Some port }
        ensures { answer_in result self.new ≡ instantiate (spawn_in wish.now) state port self.old }
    {
        let id = self.voices.next_id()?;
        let voice = self.new_voice(id, wish, state, port);
        let pan = pans(wish.pan);
        let nodes = voice_nodes(id, &wish.def, pan);
        let inner = inner_edges(voice.first, &wish.def, pan);
        let outer = outer_edge(voice.first, &wish.def, pan, wish.bus, port);
        self.graph.raise_noise(wish.bus);
        // there is room
        let _ = self
            .graph
            .add_nodes(nodes.as_slice(), inner.as_slice(), outer);
        self.voices.admit(voice)
    }

    // The voice gives way: it fades behind the port of its bus that it feeds; one that feeds none is removed at once. Its level is read before anything
    // changes.
    pub(crate) fn steal_voice(&mut self, voice: VoiceId)
        requires { FadeRoom self.old }
        ensures { self.new ≡ steal voice self.old }
    {
        let Some(v) = self.voices.find(voice) else {
            return;
        };
        let number = self.steals.count();
        let fed = feeding_edge(self.graph.edges(), feeder(&v), v.bus);
        self.record_steal(&v, fed.is_none());
        let Some(e) = fed else {
            self.forget_voice(v.id);
            return;
        };
        let fade = NodeId(self.graph.next_id() as u32);
        let nodes = [fade_node(v.id)];
        let inner = [Edge {
            to: fade,
            port: 0,
            ..e
        }];
        self.graph.claim();
        // there is room
        let _ = self
            .graph
            .add_nodes(&nodes, &inner, Edge { from: fade, ..e });
        self.voices.begin_fade(
            v.id,
            Fade {
                node: fade,
                start: self.clock,
                position: 0,
                number,
            },
        );
    }
}
