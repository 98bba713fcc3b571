ghost use Rattle.std.specs.Prelude.{◌≡◌, ◌<◌};
ghost use Rattle.voice.specs.Voice.{new_fade};
ghost use Rattle.memory.specs.View.{Memory, model_of};
ghost use Rattle.memory.specs.Lent.{lent_spawn, lent_params};
ghost use Rattle.call_spawn.specs.Room.{FadeRoom, admission_under, steal};

use bus_room::cut::record_steal;
use call_free::forget::forget_voice;
use graph_rows::edge_row::EdgeTable;
use graph_rows::node_row::NodeTable;
use graph_tables::ports::feeding_edge;
use memory::state::State;
use node::record::{NodeId, VoiceId};
use steal_log::StealTable;
use voice::policy::Admission;
use voice::voices::Fade;
use voice_graph::growth::add_fade;
use voice_policy::policy::request_in;
use voice_rows::fade::begin_fade;
use voice_rows::feeding::feeder_at;
use voice_rows::levels::{Counting, candidates};
use voice_rows::row::{VoiceTable, bus_at};
use voice_rows::table::find_voice;

// The fade of a victim: it starts now, and its record is the next one.
fn new_fade(s: State) -> Fade
    requires { s.next < 4294967296 }
    ensures { result ≡ new_fade s.next s.clock s.stolen }
{
    Fade {
        node: NodeId(s.next as u32),
        start: s.clock,
        position: 0,
        number: s.stolen,
    }
}

// The voice `w` gives way: it fades behind the port of its bus that it feeds; one that feeds none is removed at once. Its level is read
// before anything changes.
pub(crate) fn steal_voice(
    s: State,
    nodes: &mut NodeTable,
    edges: &mut EdgeTable,
    voices: &mut VoiceTable,
    steals: &mut StealTable,
    w: VoiceId,
) -> State
    requires { (m : Memory) → FadeRoom (model_of (lent_spawn s nodes.old edges.old voices.old steals.old m)) }
    ensures { (m : Memory) → model_of (lent_spawn result nodes.new edges.new voices.new steals.new m) ≡ steal w (model_of (lent_spawn s nodes.old edges.old voices.old steals.old m)) }
{
    let Some(row) = find_voice(voices, s.voices, w) else {
        return s;
    };
    let bus = bus_at(voices, row);
    let fed = feeding_edge(edges, s.edges, feeder_at(voices, row), bus);
    let told = record_steal(s, nodes, voices, steals, row, fed.is_none());
    let Some(e) = fed else {
        return forget_voice(told, nodes, edges, voices, w);
    };
    let grown = add_fade(told, nodes, edges, w, e);
    let f = new_fade(s);
    begin_fade(voices, grown.voices, w, f);
    grown
}

// What a new voice of rank `rank` on `bus` meets. Without a budget it is admitted, and no level is read.
pub(crate) fn admission(
    s: State,
    nodes: &NodeTable,
    voices: &VoiceTable,
    budget: Option<usize>,
    bus: NodeId,
    rank: u32,
) -> Admission
    ensures { (m : Memory) → result ≡ admission_under budget bus rank (model_of (lent_params s nodes.now voices.now m)) }
{
    if budget.is_none() {
        return Admission::Admit;
    }
    let config = s.config;
    let policy = config.policy;
    let scope = config.scope;
    let by = Counting {
        scope,
        bus,
        clock: s.clock,
    };
    let tracked = candidates(voices, s.voices, nodes, s.nodes, by);
    request_in(budget, policy, rank, tracked)
}
