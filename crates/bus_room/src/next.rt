ghost use Rattle.std.specs.Prelude.{◌≡◌, take};
ghost use Rattle.edges.specs.Ports.{free_port};
ghost use Rattle.graph.specs.Node.{node_at, ports_of};
ghost use Rattle.graph_rows.specs.Node.{nodes_in};
ghost use Rattle.graph_rows.specs.Edge.{edges_in};
ghost use Rattle.voice.specs.Policy.{victim};
ghost use Rattle.voice_rows.specs.Levels.{candidates_at};
ghost use Rattle.voice_rows.specs.Rows.{voices_in};
ghost use Rattle.voice_rows.specs.Found.{FoundAt};
ghost use Rattle.voice.specs.Voice.{tracked_on};
ghost use Rattle.bus_room.specs.Reclaimed.{next_at};

use graph_rows::edge_row::EdgeTable;
use graph_rows::node_row::NodeTable;
use graph_tables::lookup::brief_of;
use graph_tables::ports::free_port;
use memory::state::State;
use node::record::NodeId;
use voice::policy::{BudgetScope, Victim};
use voice_policy::policy::pick_victim;
use voice_rows::fade::earliest_fade;
use voice_rows::levels::{Counting, candidates};
use voice_rows::row::VoiceTable;
use voice_rows::table::find_voice;

// The lowest port of the bus without an edge, by the edges of everybody; a dead bus has no ports.
pub fn bus_port(s: State, nodes: &NodeTable, edges: &EdgeTable, bus: NodeId) -> Option<u32>
    ensures { result ≡ free_port (take s.edges (edges_in edges.now)) bus (ports_of (node_at (take s.nodes (nodes_in nodes.now)) bus)) }
{
    let node = brief_of(nodes, s.nodes, bus)?;
    free_port(edges, s.edges, bus, node.ports)
}

// The tracked voice of `bus` that gives way to a new voice of rank `rank`, or none.
// The bus and the rank are two arguments, here, below, in `make_room` and in `admission` of call_spawn: a spawn has both in its wish, and a struct of
// the two would be made of that for two calls alone, and be taken apart in each body.
fn bus_victim(s: State, nodes: &NodeTable, voices: &VoiceTable, bus: NodeId, rank: u32) -> Victim
    ensures { result ≡ victim s.config.policy rank (candidates_at (take s.nodes (nodes_in nodes.now)) s.clock (tracked_on bus) (take s.voices (voices_in voices.now))) }
{
    let by = Counting {
        scope: BudgetScope::PerGroup,
        bus,
        clock: s.clock,
    };
    let tracked = candidates(voices, s.voices, nodes, s.nodes, by);
    pick_victim(tracked, s.config.policy, rank)
}

// The row of the voice that is removed for a port of `bus`: its earliest fade, whatever its rank, else the tracked voice of the bus that gives
// way to a new voice of rank `rank`.
pub fn next_out(
    s: State,
    nodes: &NodeTable,
    voices: &VoiceTable,
    bus: NodeId,
    rank: u32,
) -> Option<usize>
    ensures { FoundAt result s.voices (voices_in voices.now) (next_at (take s.nodes (nodes_in nodes.now)) s.clock s.config.policy bus rank (take s.voices (voices_in voices.now))) }
{
    earliest_fade(voices, s.voices, bus).or_else(|| {
        let (_, voice) = bus_victim(s, nodes, voices, bus, rank)?;
        find_voice(voices, s.voices, voice)
    })
}
