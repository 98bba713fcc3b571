ghost use Rattle.std.specs.Prelude.{◌≡◌, ◌||◌, ◌+◌, ltb, leb, length, take, None};
ghost use Rattle.graph.specs.Tables.{answer_of};
ghost use Rattle.graph_rows.specs.Node.{nodes_in};
ghost use Rattle.graph_rows.specs.Edge.{edges_in};
ghost use Rattle.voice_rows.specs.Rows.{voices_in};
ghost use Rattle.model.specs.Refuse.{spawn_refusal};
ghost use Rattle.memory.specs.View.{Memory, shared_of};
ghost use Rattle.memory.specs.Lent.{lent_voices};
ghost use Rattle.call_spawn.specs.Room.{bus_brief, room_refusal};

use graph_rows::edge_row::EdgeTable;
use graph_rows::node_row::{Brief, NodeTable};
use graph_tables::lookup::{brief_of, node_count};
use graph_tables::tests::host_test;
use graph_tables::wiring::edge_count;
use memory::state::State;
use node::refusal::Refusal;
use store::wish::Wish;
use synthdef::limits::allowed;
use voice_rows::row::VoiceTable;
use voice_rows::table::voice_count;

// Whether `held` and `more` and `spare` together are above `limit`.
// In 128 bits, where the sum fits: `checked_add` twice, and a case for none, is longer.
fn is_over(limit: u64, held: u64, more: u64, spare: u64) -> bool
    ensures { result ≡ ltb limit (held + more + spare) }
{
    u128::from(limit) < u128::from(held) + u128::from(more) + u128::from(spare)
}

// Headroom: the new voice's nodes and edges, what a pan and a fade add, and a place among the voices.
fn no_headroom(nodes: usize, edges: usize, voices: usize, ns: usize, es: usize) -> bool
    ensures { result ≡ (ltb 512 (nodes + ns + 3) || (ltb 1024 (edges + es + 4) || leb 64 voices)) }
{
    is_over(512, nodes as u64, ns as u64, 3)
        || is_over(1024, edges as u64, es as u64, 4)
        || 64 <= voices
}

// Whether the node ids or the voice ids do not suffice.
fn no_ids(next: u64, ns: usize, spawned: u64) -> bool
    ensures { result ≡ (ltb 4294967296 (next + ns + 3) || leb 18446744073709551615 spawned) }
{
    is_over(4294967296, next, ns as u64, 3) || spawned == u64::MAX
}

// The bus lives, is the host's and has ports. The first of the three that fails is told.
fn bus_test(bus: Option<Brief>) -> Result<(), Refusal>
    ensures { result ≡ answer_of (bus_brief bus) }
{
    host_test(bus)?;
    if bus.is_some_and(|node| node.ports == 0) {
        return Err(Refusal::BusWithoutPorts);
    }
    Ok(())
}

// The tables have room for a definition of `ns` nodes and `es` edges; else they are full. The ids last; else they are used up.
fn room_test(
    s: State,
    nodes: &NodeTable,
    edges: &EdgeTable,
    voices: &VoiceTable,
    ns: usize,
    es: usize,
) -> Result<(), Refusal>
    ensures { result ≡ answer_of (room_refusal (length (take s.nodes (nodes_in nodes.now))) (length (take s.edges (edges_in edges.now))) (length (take s.voices (voices_in voices.now))) s.next s.spawned ns es) }
{
    let n = node_count(nodes, s.nodes);
    let e = edge_count(edges, s.edges);
    let v = voice_count(voices, s.voices);
    if no_headroom(n, e, v, ns, es) {
        return Err(Refusal::TableFull);
    }
    if no_ids(s.next, ns, s.spawned) {
        return Err(Refusal::IdsUsedUp);
    }
    Ok(())
}

// Why a spawn is refused before anything changes, if it is. The bus is read once.
pub fn spawn_refusal(
    s: State,
    nodes: &NodeTable,
    edges: &EdgeTable,
    voices: &VoiceTable,
    w: Wish,
) -> Result<(), Refusal>
    ensures { (m : Memory) → result ≡ answer_of (spawn_refusal (shared_of (lent_voices s nodes.now edges.now voices.now m)) (take s.voices (voices_in voices.now)) w.def w.bus w.rank) }
{
    if 7 < w.rank {
        return Err(Refusal::RankTooHigh);
    }
    if !allowed(w.def) {
        return Err(Refusal::DefinitionLimits);
    }
    bus_test(brief_of(nodes, s.nodes, w.bus))?;
    room_test(
        s,
        nodes,
        edges,
        voices,
        w.def.nodes.count,
        w.def.edges.count,
    )
}
