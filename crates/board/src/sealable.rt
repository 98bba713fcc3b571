//! Whether a store may be sealed.
ghost use Rattle.std.specs.Prelude.{◌≡◌, ◌+◌, ◌*◌, ◌≤◌, leb};
ghost use Rattle.sealed.specs.Seal.{accepts};
ghost use Rattle.board.specs.Closing.{fitting, bus_stated, stated};

use engine::reach::Store;
use node::record::{HOST, Node};
use sealed::profile::Profile;

// Whether `base` and `ports` + 1 times `each` and `spare` are together at most `limit`. Numbers above 1,024 are told
// apart first, so nothing overflows.
fn has_room(limit: u64, base: u64, ports: u64, each: u64, spare: u64) -> bool
    requires ports_bound { ports ≤ 31 }
    requires few { spare ≤ 4 }
    requires most { limit ≤ 1024 }
    ensures { result ≡ leb (base + (ports + 1) * (each + spare)) limit }
{
    base <= 1024 && each <= 1024 && base + (ports + 1) * (each + spare) <= limit
}

// Whether the numbers of the profile leave room in the tables.
fn numbers_fit(p: &Profile) -> bool
    ensures { result ≡ fitting p.now }
{
    (2..=31).contains(&p.ports)
        && has_room(512, p.host_nodes, p.ports, p.def_nodes, 3)
        && has_room(1024, p.host_edges, p.ports, p.def_edges, 4)
}

// Whether the bus lives, is the host's, and has so many ports.
fn is_bus(bus: Option<Node>, ports: u64) -> bool
    ensures { result ≡ bus_stated bus ports }
{
    bus.is_some_and(|node| node.owner == HOST && u64::from(node.ports) == ports)
}

// Whether a store with this bus and these counts is the one that the profile states, and has no voice.
fn is_stated(bus: Option<Node>, nodes: usize, edges: usize, voices: usize, p: &Profile) -> bool
    ensures { result ≡ stated bus nodes edges voices p.now }
{
    is_bus(bus, p.ports)
        && nodes as u64 == p.host_nodes
        && edges as u64 == p.host_edges
        && voices == 0
}

/// Whether sealing by the profile is accepted, as far as the store decides it.
pub(crate) fn accepts(store: &Store, p: &Profile) -> bool
    ensures { result ≡ accepts p.now store.now.shared store.now.voices }
{
    if !numbers_fit(p) {
        return false;
    }
    let bus = store.node_record(p.bus);
    let nodes = store.nodes().len();
    let edges = store.edges().len();
    let voices = store.voices().len();
    is_stated(bus, nodes, edges, voices, p)
}
