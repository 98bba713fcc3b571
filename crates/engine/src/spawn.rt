//! Spawns: the refusals; admission, with a victim if it asks for one; then the lowest port of the bus without an edge.

ghost use Rattle.std.specs.Prelude.{◌≡◌, ◌+◌, ◌||◌, leb, ltb};
ghost use Rattle.graph.specs.Tables.{answer_of};
ghost use Rattle.model.specs.Refuse.{spawn_refusal};
ghost use Rattle.model.specs.Spawn.{middle, spawn_of, state_under, tries};
ghost use Rattle.model.specs.Call.{spawned, spawn_managed, spawn_loose};
ghost use Rattle.model.specs.Wish.{spawn_in, call_of};
ghost use Rattle.engine.specs.Called.{Called};
ghost use Rattle.engine.specs.Spawning.{Headroom, bus_refusal, room_refusal, budget_for, admission_under, place_under, answer_in};

use crate::Tables;
use graph::tests::host_test;
use node::record::{NodeId, VoiceId};
use node::refusal::Refusal;
use store::wish::Wish;
use synthdef::def::SynthDef;
use synthdef::limits::allowed;
use voice::policy::{Admission, request_in};
use voice::voices::VoiceState;

// Whether `held` and `more` and `spare` together are above `limit`.
fn is_over(limit: u64, held: u64, more: u64, spare: u64) -> bool
    ensures { result ≡ ltb limit (held + more + spare) }
{
    u128::from(limit) < u128::from(held) + u128::from(more) + u128::from(spare)
}

// Headroom: the new voice's nodes and edges, what a pan and a fade add, and a place among the voices.
fn no_headroom(nodes: usize, edges: usize, voices: usize, ns: usize, es: usize) -> bool
    ensures { result ≡ (ltb 512 (nodes + ns + 3) || (ltb 1024 (edges + es + 4) || leb 64 voices)) }
{
    is_over(512, nodes as u64, ns as u64, 3)
        || is_over(1024, edges as u64, es as u64, 4)
        || 64 <= voices
}

// Whether the node ids or the voice ids do not suffice.
fn no_ids(next: u64, ns: usize, spawned: u64) -> bool
    ensures { result ≡ (ltb 4294967296 (next + ns + 3) || leb 18446744073709551615 spawned) }
{
    is_over(4294967296, next, ns as u64, 3) || spawned == u64::MAX
}

// Under a budget the new voice is tracked; without one nobody is.
fn state_under(budget: Option<usize>) -> VoiceState
    ensures { result ≡ state_under budget }
{
    if budget.is_some() {
        VoiceState::Tracked
    } else {
        VoiceState::Loose
    }
}

impl Tables {
    // The bus lives, is the host's and has ports. The first of the three that fails is told.
    fn bus_test(&self, bus: NodeId) -> Result<(), Refusal>
        ensures { result ≡ answer_of (bus_refusal self.now.shared.graph bus) }
    {
        let node = self.graph.node(bus);
        host_test(node)?;
        if node.is_some_and(|n| n.ports == 0) {
            return Err(Refusal::BusWithoutPorts);
        }
        Ok(())
    }

    // The tables have room for a definition of `ns` nodes and `es` edges; else they are full. The ids last; else they are used up.
    fn room_test(&self, ns: usize, es: usize) -> Result<(), Refusal>
        ensures { result ≡ answer_of (room_refusal self.now ns es) }
    {
        let nodes = self.graph.nodes().len();
        let edges = self.graph.edges().len();
        if no_headroom(nodes, edges, self.voices.len(), ns, es) {
            return Err(Refusal::TableFull);
        }
        if no_ids(self.graph.next_id(), ns, self.voices.spawned()) {
            return Err(Refusal::IdsUsedUp);
        }
        Ok(())
    }

    // Why a spawn is refused before anything changes, if it is (SPEC 9.1).
    fn spawn_test(&self, wish: &Wish) -> Result<(), Refusal>
        ensures { result ≡ answer_of (spawn_refusal self.now.shared self.now.voices wish.now.def wish.now.bus wish.now.rank) }
    {
        if 7 < wish.rank {
            return Err(Refusal::RankTooHigh);
        }
        if !allowed(wish.def) {
            return Err(Refusal::DefinitionLimits);
        }
        self.bus_test(wish.bus)?;
        self.room_test(wish.def.nodes.count, wish.def.edges.count)
    }

    // The budget that a spawn goes by: a managed one by the store's, an unmanaged one by none, so that it neither steals nor is tracked.
    fn budget_for(&self, managed: bool) -> Option<usize>
        ensures { result ≡ budget_for managed self.now.shared.config.budget }
    {
        self.config.budget.filter(|_| managed)
    }

    // What a new voice of rank `rank` on `bus` meets. Without a budget it is admitted, and no level is read.
    fn admission(&self, budget: Option<usize>, bus: NodeId, rank: u32) -> Admission
        ensures { result ≡ admission_under budget bus rank self.now }
    {
        if budget.is_none() {
            return Admission::Admit;
        }
        let tracked = self.candidates(self.config.scope, bus);
        request_in(budget, self.config.policy, rank, &tracked)
    }

    // How many voices may be removed for a port: none without a budget, else all.
    fn most_removed(&self, budget: Option<usize>) -> usize
        ensures { result ≡ tries budget self.now.voices }
    {
        if budget.is_some() {
            self.voices.len()
        } else {
            0
        }
    }

    // The new voice gets the lowest free port. Where there is none, the budget says how many voices of the bus may be removed for one; no tracked
    // voice of a higher rank than the new voice's is among them.
    fn place(&mut self, budget: Option<usize>, wish: &Wish) -> Result<VoiceId, Refusal>
        requires { Headroom wish.now.def self.old }
        ensures { answer_in result self.new ≡ place_under budget (spawn_in wish.now) self.old }
    {
        let state = state_under(budget);
        let fuel = self.most_removed(budget);
        match self.make_room(wish.bus, wish.rank, fuel) {
            Some(port) => self.seat_voice(wish, state, port),
            None => Err(Refusal::NoPort),
        }
    }

    /// The spawn that is asked for (SPEC 9). Refused, and nothing changes, with 26, 9, 4, 5, 10, 7 or 8, the first of these, or 11 where nobody gives way;
    /// with 12 where no port of the bus is free, and then those that were removed for one are gone.
    pub fn spawn_voice(&mut self, wish: &Wish) -> Result<VoiceId, Refusal>
        ensures { Called (call_of wish.now) self.old (spawned result) self.new }
    {
        self.spawn_test(wish)?;
        let budget = self.budget_for(wish.managed);
        match self.admission(budget, wish.bus, wish.rank) {
            Admission::Reject => Err(Refusal::Rejected),
            Admission::Admit => self.place(budget, wish),
            Admission::Steal { place: _, voice } => {
                self.steal_voice(voice);
                self.place(budget, wish)
            }
        }
    }

    /// An unmanaged voice in the middle: the port search alone (SPEC 9.10). Refused as `spawn_voice` is, but never with 11.
    pub fn spawn_voice_on_bus(
        &mut self,
        def: &SynthDef,
        bus: NodeId,
        rank: u32,
    ) -> Result<VoiceId, Refusal>
        ensures { Called (spawn_loose (spawn_of def.now bus middle rank)) self.old (spawned result) self.new }
    {
        self.spawn_voice_on_bus_panned(def, bus, 0.0, rank)
    }

    /// An unmanaged voice, panned where `pan` is not 0 (SPEC 9.8).
    pub fn spawn_voice_on_bus_panned(
        &mut self,
        def: &SynthDef,
        bus: NodeId,
        pan: f32,
        rank: u32,
    ) -> Result<VoiceId, Refusal>
        ensures { Called (spawn_loose (spawn_of def.now bus pan rank)) self.old (spawned result) self.new }
    {
        self.spawn_voice(&Wish {
            managed: false,
            def: *def,
            bus,
            pan,
            rank,
        })
    }

    /// A managed voice in the middle: admission first, with a victim where the budget is spent (SPEC 9).
    pub fn spawn_voice_on_bus_managed(
        &mut self,
        def: &SynthDef,
        bus: NodeId,
        rank: u32,
    ) -> Result<VoiceId, Refusal>
        ensures { Called (spawn_managed (spawn_of def.now bus middle rank)) self.old (spawned result) self.new }
    {
        self.spawn_voice_on_bus_panned_managed(def, bus, 0.0, rank)
    }

    /// A managed voice, panned where `pan` is not 0.
    pub fn spawn_voice_on_bus_panned_managed(
        &mut self,
        def: &SynthDef,
        bus: NodeId,
        pan: f32,
        rank: u32,
    ) -> Result<VoiceId, Refusal>
        ensures { Called (spawn_managed (spawn_of def.now bus pan rank)) self.old (spawned result) self.new }
    {
        self.spawn_voice(&Wish {
            managed: true,
            def: *def,
            bus,
            pan,
            rank,
        })
    }
}
