ghost use Rattle.std.specs.Prelude.{◌≡◌, ◌+◌, ◌*◌, ◌≤◌, leb, take};
ghost use Rattle.voice_rows.specs.Rows.{voices_in};
ghost use Rattle.memory.specs.View.{Memory, shared_of};
ghost use Rattle.memory.specs.Lent.{lent_voices};
ghost use Rattle.sealed.specs.Seal.{accepts};
ghost use Rattle.call_seal.specs.Stated.{fitting, bus_briefed, stated};

use graph_rows::edge_row::EdgeTable;
use graph_rows::node_row::{Brief, NodeTable};
use graph_tables::lookup::{brief_of, node_count};
use graph_tables::wiring::edge_count;
use memory::state::State;
use node::record::HOST;
use sealed::profile::Profile;
use voice_rows::row::VoiceTable;
use voice_rows::table::voice_count;

// Whether `base` and `ports` + 1 times `each` and `spare` are together at most `limit`. Numbers above 1,024 are told apart first, so
// nothing overflows: with `checked_add` and `checked_mul` it would be three calls, and a case for none.
fn has_room(limit: u64, base: u64, ports: u64, each: u64, spare: u64) -> bool
    requires ports_bound { ports ≤ 31 }
    requires few { spare ≤ 4 }
    requires most { limit ≤ 1024 }
    ensures { result ≡ leb (base + (ports + 1) * (each + spare)) limit }
{
    base <= 1024 && each <= 1024 && base + (ports + 1) * (each + spare) <= limit
}

// Whether the numbers of the profile leave room in the tables.
fn numbers_fit(p: Profile) -> bool
    ensures { result ≡ fitting p }
{
    (2..=31).contains(&p.ports)
        && has_room(512, p.host_nodes, p.ports, p.def_nodes, 3)
        && has_room(1024, p.host_edges, p.ports, p.def_edges, 4)
}

// Whether the bus lives, is the host's, and has so many ports.
fn is_bus(bus: Option<Brief>, ports: u64) -> bool
    ensures { result ≡ bus_briefed bus ports }
{
    bus.is_some_and(|node| node.owner == HOST && u64::from(node.ports) == ports)
}

// Whether a store with this bus and these counts is the one that the profile states, and has no voice.
fn is_stated(bus: Option<Brief>, nodes: usize, edges: usize, voices: usize, p: Profile) -> bool
    ensures { result ≡ stated bus nodes edges voices p }
{
    is_bus(bus, p.ports)
        && nodes as u64 == p.host_nodes
        && edges as u64 == p.host_edges
        && voices == 0
}

// Whether sealing by the profile is accepted, as far as the store decides it.
pub fn fits_store(
    s: State,
    nodes: &NodeTable,
    edges: &EdgeTable,
    voices: &VoiceTable,
    p: Profile,
) -> bool
    ensures { (m : Memory) → result ≡ accepts p (shared_of (lent_voices s nodes.now edges.now voices.now m)) (take s.voices (voices_in voices.now)) }
{
    if !numbers_fit(p) {
        return false;
    }
    let bus = brief_of(nodes, s.nodes, p.bus);
    let n = node_count(nodes, s.nodes);
    let e = edge_count(edges, s.edges);
    let v = voice_count(voices, s.voices);
    is_stated(bus, n, e, v, p)
}
