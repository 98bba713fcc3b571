ghost use Rattle.std.specs.Prelude.{◌≡◌, ◌+◌};
ghost use Rattle.model.specs.Spawn.{pans, new_voice};
ghost use Rattle.model.specs.Wish.{spawn_in};
ghost use Rattle.model.specs.Model.{instantiate};
ghost use Rattle.memory.specs.View.{Memory, shared_of, model_of};
ghost use Rattle.memory.specs.Lent.{lent_nodes, lent_voices};
ghost use Rattle.call_spawn.specs.Room.{Headroom, result_of, NewIds};

use graph_rows::edge_row::EdgeTable;
use graph_rows::node_row::NodeTable;
use graph_tables::noise::{noise_of, raise_noise};
use memory::parts::{with_spawned, with_voices};
use memory::state::{CallResult, State};
use node::record::{NodeId, VoiceId};
use node::refusal::Refusal;
use store::wish::Wish;
use synthdef::instance::id_after;
use synthdef::plan::done_plan;
use voice::voices::{Voice, VoiceState};
use voice_graph::growth::add_voice;
use voice_rows::row::VoiceTable;
use voice_rows::table::push_voice;

// Whether a pan position asks for a pan node.
fn pans(pan: f32) -> bool
    ensures { result ≡ pans pan }
{
    pan != 0.0
}

// The record of the new voice, which gets the noise sequence of its bus.
fn new_voice(s: State, nodes: &NodeTable, w: Wish, state: VoiceState, port: u32) -> Voice
    requires { NewIds w.def s.next s.spawned }
    ensures { (m : Memory) → result ≡ new_voice (spawn_in w) state port (shared_of (lent_nodes s nodes.now m)) }
{
    let first = NodeId(s.next as u32);
    Voice {
        id: VoiceId(s.spawned + 1),
        birth: s.clock,
        bus: w.bus,
        port,
        first,
        count: w.def.nodes.as_slice().len() as u32,
        output: id_after(first, w.def.output),
        panned: pans(w.pan),
        sequence: noise_of(nodes, s.nodes, w.bus),
        rank: w.rank,
        state,
        params: w.def.params,
        plan: done_plan(w.def),
    }
}

// The new voice stands on the port `port` of the bus.
pub(crate) fn seat_voice(
    s: State,
    nodes: &mut NodeTable,
    edges: &mut EdgeTable,
    voices: &mut VoiceTable,
    w: Wish,
    state: VoiceState,
    port: u32,
) -> CallResult<Result<VoiceId, Refusal>>
    requires { (m : Memory) → Headroom w.def (model_of (lent_voices s nodes.old edges.old voices.old m)) }
    ensures { (m : Memory) → result_of result.answer (lent_voices result.state nodes.new edges.new voices.new m) ≡ instantiate (spawn_in w) state port (model_of (lent_voices s nodes.old edges.old voices.old m)) }
{
    let id = VoiceId(s.spawned + 1);
    let voice = new_voice(s, nodes, w, state, port);
    raise_noise(nodes, s.nodes, w.bus);
    let grown = add_voice(s, nodes, edges, id, w.def, pans(w.pan), w.bus, port);
    let count = push_voice(voices, grown.voices, voice);
    CallResult {
        state: with_spawned(with_voices(grown, count), s.spawned + 1),
        answer: Ok(id),
    }
}
