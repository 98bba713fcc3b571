// Each function changes some parts as a definition of specs/Parts does, by which the theorems say what a call changed.
ghost use Rattle.std.specs.Prelude.{◌≡◌};
ghost use Rattle.memory.specs.Parts.{graphed, ordered, queued, voiced, clocked, numbered, logged};

use crate::state::State;
use node::record::NodeId;
use steal_log::Ring;

// The state with these counts of nodes and edges, this sink and this next node id, unprepared.
pub fn with_graph(s: State, nodes: usize, edges: usize, sink: Option<NodeId>, next: u64) -> State
    ensures { result ≡ graphed s nodes edges sink next }
{
    State {
        nodes,
        edges,
        sink,
        prepared: false,
        next,
        ..s
    }
}

// The state, prepared, with so many nodes in processing order.
pub fn with_order(s: State, order: usize) -> State
    ensures { result ≡ ordered s order }
{
    State {
        order,
        prepared: true,
        ..s
    }
}

// The state with so many events pending.
pub fn with_events(s: State, events: usize) -> State
    ensures { result ≡ queued s events }
{
    State { events, ..s }
}

// The state with so many voices.
pub fn with_voices(s: State, voices: usize) -> State
    ensures { result ≡ voiced s voices }
{
    State { voices, ..s }
}

// The state at this clock.
pub fn with_clock(s: State, clock: u64) -> State
    ensures { result ≡ clocked s clock }
{
    State { clock, ..s }
}

// The state with so many voice ids given out.
pub fn with_spawned(s: State, spawned: u64) -> State
    ensures { result ≡ numbered s spawned }
{
    State { spawned, ..s }
}

// The state with so many steal records written, and this place of the next one.
pub fn with_steals(s: State, stolen: u64, place: usize) -> State
    ensures { result ≡ logged s stolen place }
{
    State { stolen, place, ..s }
}

// What the state knows of the ring of steal records. A function and no `From`: `ring_of(s)` says which part is meant, and an impl would say no more.
pub fn ring_of(s: State) -> Ring
    ensures { (result.total ≡ s.stolen) × (result.next ≡ s.place) }
{
    Ring {
        total: s.stolen,
        next: s.place,
    }
}
