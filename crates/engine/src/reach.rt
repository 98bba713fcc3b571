//! The store: tables that calls left, from an accepted making on. So the ledger's claim holds of each.

ghost use Rattle.std.specs.Prelude.{◌≡◌, Err};
ghost use Rattle.node.specs.declared.refusal.Refusal as refusal;
ghost use Rattle.node.specs.declared.order.LastOrder.TheVariants as last;
ghost use Rattle.model.specs.Call as call;
ghost use Rattle.model.specs.Spawn.{middle, spawn_of};
ghost use Rattle.model.specs.Wish.{call_of};
ghost use Rattle.busiest.specs.Stretch.{said, samples, busiest};
ghost use Rattle.mixing.specs.Filled.{filled_of};
ghost use Rattle.whole_mixing.specs.Filled as whole;
ghost use Rattle.engine.specs.Called.{Called, Asked, answered, add_answered, page_answered};
ghost use Rattle.engine.specs.Made.{Makes};
ghost use Rattle.engine.specs.Reached.{Claimed};

use crate::Tables;
use crate::making::config_of;
use crate::render::Rendering;
use busiest::stretch::Busiest;
use graph::host::HostNode;
use mixing::FadePart;
use node::order::{EventAction, Glide};
use node::record::{Edge, Node, NodeId, VoiceId};
use node::refusal::Refusal;
use std::marker::Model;
use store::answer::Outcome;
use store::config::Making;
use store::wish::Wish;
use synthdef::def::SynthDef;
use voice::steal_ring::Steals;
use voice::voices::Voice;

/// A store. Every store is one that a list of calls left, from one that an accepted making gave.
#[derive(Drop)]
pub struct Store {
    tables: Tables,
}

impl Model for Store {
    ghost use Rattle.model.specs.Model.{Model};
    ghost use Rattle.engine.specs.Reached.{Reached};

    ghost Value = { Model };

    ghost view = { λ s. s.tables };

    ghost invariant = { λ s. Reached s.tables };
}

impl Store {
    /// A new store (SPEC 3). Refused with 1 for the sample rate, 2 for the block size, 3 for the budget, 20 for the
    /// fade table at another rate than its own.
    pub fn make(making: Making) -> Result<Store, Refusal>
        ensures { Makes making result }
    {
        let config = config_of(making)?;
        Ok(Store {
            tables: Tables::new(config),
        })
    }

    /// What a list of calls left has the properties that the ledger's claim says of it (SPEC 21). Nothing is done when
    /// it runs.
    pub fn claim(&self)
        ensures { Claimed self.now }
    {
        let _tables = &self.tables;
    }

    /// See `Tables::add_node`.
    pub fn add_node(&mut self, kind: &[u8], node: HostNode) -> Result<NodeId, Refusal>
        ensures { Called (call.add_node kind.now node.ports node.required node.takes_values node.takes_glides)
            self.old (add_answered result) self.new }
    {
        self.tables.add_node(kind, node)
    }

    /// See `Tables::remove_node`.
    pub fn remove_node(&mut self, node: NodeId) -> Result<(), Refusal>
        ensures { Called (call.remove_node node) self.old (answered result) self.new }
    {
        self.tables.remove_node(node)
    }

    /// See `Tables::connect`.
    pub fn connect(&mut self, from: NodeId, to: NodeId, port: u32) -> Result<(), Refusal>
        ensures { Called (call.connect from to port) self.old (answered result) self.new }
    {
        self.tables.connect(from, to, port)
    }

    /// See `Tables::disconnect`.
    pub fn disconnect(&mut self, to: NodeId, port: u32) -> Result<(), Refusal>
        ensures { Called (call.disconnect to port) self.old (answered result) self.new }
    {
        self.tables.disconnect(to, port)
    }

    /// See `Tables::set_sink`.
    pub fn set_sink(&mut self, node: NodeId) -> Result<(), Refusal>
        ensures { Called (call.set_sink node) self.old (answered result) self.new }
    {
        self.tables.set_sink(node)
    }

    /// See `Tables::prepare`.
    pub fn prepare(&mut self) -> Result<(), Refusal>
        ensures { Called call.prepare self.old (answered result) self.new }
    {
        self.tables.prepare()
    }

    /// See `Tables::set_voice_param`.
    pub fn set_voice_param(&mut self, voice: VoiceId, name: &[u8], value: f32) -> Outcome
        ensures { Called (call.order voice name.now (last.Value value)) self.old (call.ordered result) self.new }
    {
        self.tables.set_voice_param(voice, name, value)
    }

    /// See `Tables::set_voice_param_glide`.
    pub fn set_voice_param_glide(&mut self, voice: VoiceId, name: &[u8], glide: Glide) -> Outcome
        ensures { Called (call.order voice name.now (last.Glide glide)) self.old (call.ordered result) self.new }
    {
        self.tables.set_voice_param_glide(voice, name, glide)
    }

    /// See `Tables::report`.
    pub fn report(
        &mut self,
        node: NodeId,
        channels: usize,
        samples: &[f32],
        done: bool,
    ) -> Result<(), Refusal>
        ensures { Called (call.report node channels samples.now done) self.old (answered result) self.new }
    {
        self.tables.report(node, channels, samples, done)
    }

    /// See `Tables::spawn_voice`.
    pub fn spawn_voice(&mut self, wish: &Wish) -> Result<VoiceId, Refusal>
        ensures { Called (call_of wish.now) self.old (call.spawned result) self.new }
    {
        self.tables.spawn_voice(wish)
    }

    /// See `Tables::spawn_voice_on_bus`.
    pub fn spawn_voice_on_bus(
        &mut self,
        def: &SynthDef,
        bus: NodeId,
        rank: u32,
    ) -> Result<VoiceId, Refusal>
        ensures { Called (call.spawn_loose (spawn_of def.now bus middle rank)) self.old (call.spawned result) self.new }
    {
        self.tables.spawn_voice_on_bus(def, bus, rank)
    }

    /// See `Tables::spawn_voice_on_bus_panned`.
    pub fn spawn_voice_on_bus_panned(
        &mut self,
        def: &SynthDef,
        bus: NodeId,
        pan: f32,
        rank: u32,
    ) -> Result<VoiceId, Refusal>
        ensures { Called (call.spawn_loose (spawn_of def.now bus pan rank)) self.old (call.spawned result) self.new }
    {
        self.tables.spawn_voice_on_bus_panned(def, bus, pan, rank)
    }

    /// See `Tables::spawn_voice_on_bus_managed`.
    pub fn spawn_voice_on_bus_managed(
        &mut self,
        def: &SynthDef,
        bus: NodeId,
        rank: u32,
    ) -> Result<VoiceId, Refusal>
        ensures { Called (call.spawn_managed (spawn_of def.now bus middle rank)) self.old (call.spawned result) self.new }
    {
        self.tables.spawn_voice_on_bus_managed(def, bus, rank)
    }

    /// See `Tables::spawn_voice_on_bus_panned_managed`.
    pub fn spawn_voice_on_bus_panned_managed(
        &mut self,
        def: &SynthDef,
        bus: NodeId,
        pan: f32,
        rank: u32,
    ) -> Result<VoiceId, Refusal>
        ensures { Called (call.spawn_managed (spawn_of def.now bus pan rank)) self.old (call.spawned result) self.new }
    {
        self.tables
            .spawn_voice_on_bus_panned_managed(def, bus, pan, rank)
    }

    /// See `Tables::free_voice`.
    pub fn free_voice(&mut self, voice: VoiceId) -> Outcome
        ensures { Called (call.free voice) self.old (call.ordered result) self.new }
    {
        self.tables.free_voice(voice)
    }

    /// See `Tables::free_done_synths`.
    pub fn free_done_synths(&mut self) -> usize
        ensures { Called call.clear self.old (call.removed result) self.new }
    {
        self.tables.free_done_synths()
    }

    /// See `Tables::render`.
    pub fn render(&mut self, out: &mut [u8]) -> Rendering
        ensures { Called (call.render out.old) self.old (call.rendered result.answer result.taken out.new) self.new }
    {
        self.tables.render(out)
    }

    /// See `Tables::schedule`.
    pub fn schedule(
        &mut self,
        time: u64,
        voice: VoiceId,
        name: &[u8],
        action: EventAction,
    ) -> Result<(), Refusal>
        ensures { Called (call.schedule time voice name.now action) self.old (answered result) self.new }
    {
        self.tables.schedule(time, voice, name, action)
    }

    /// See `Tables::voice_level`.
    pub fn voice_level(&self, voice: VoiceId) -> Option<f32>
        ensures { Asked (call.level voice) self.now (call.known result) }
    {
        self.tables.voice_level(voice)
    }

    /// See `Tables::fade_position`.
    pub fn fade_position(&self, voice: VoiceId) -> Option<u64>
        ensures { Asked (call.position voice) self.now (call.reached result) }
    {
        self.tables.fade_position(voice)
    }

    /// See `Tables::voice`.
    pub fn voice(&self, voice: VoiceId) -> Option<Voice>
        ensures { Asked (call.voice voice) self.now (call.found result) }
    {
        self.tables.voice(voice)
    }

    /// See `Tables::voice_at`.
    pub fn voice_at(&self, place: usize) -> Option<Voice>
        ensures { Asked (call.voice_at place) self.now (call.found result) }
    {
        self.tables.voice_at(place)
    }

    /// See `Tables::voices`.
    pub fn voices(&self) -> &[Voice]
        ensures { Asked call.voices self.now (call.all result.now) }
    {
        self.tables.voices()
    }

    /// See `Tables::steals`.
    pub fn steals(&self) -> &Steals
        ensures { Asked call.steals self.now (call.stolen result.now) }
    {
        self.tables.steals()
    }

    /// See `Tables::edges`.
    pub fn edges(&self) -> &[Edge]
        ensures { Asked call.edges self.now (call.wires result.now) }
    {
        self.tables.edges()
    }

    /// See `Tables::processing_order`.
    pub fn processing_order(&self) -> &[NodeId]
        ensures { Asked call.processing self.now (call.in_order result.now) }
    {
        self.tables.processing_order()
    }

    /// See `Tables::sources`.
    pub fn sources(&self, node: NodeId) -> [Option<NodeId>; 64]
        ensures { Asked (call.sources node) self.now (call.fed result) }
    {
        self.tables.sources(node)
    }

    /// See `Tables::node_record`.
    pub fn node_record(&self, node: NodeId) -> Option<Node>
        ensures { Asked (call.node_record node) self.now (call.found_node result) }
    {
        self.tables.node_record(node)
    }

    /// See `Tables::clock`.
    pub fn clock(&self) -> u64
        ensures { Asked call.clock self.now (call.time result) }
    {
        self.tables.clock()
    }

    /// See `Tables::page`.
    pub fn page(&self, out: &mut [u8]) -> Result<usize, Refusal>
        ensures is { Asked (call.page out.old) self.now (page_answered result out.new) }
        ensures same { (x : refusal.Refusal) → result ≡ Err x → out.new ≡ out.old }
    {
        self.tables.page(out)
    }

    /// See `Tables::fade_output`.
    pub fn fade_output(
        &self,
        input: &[f32],
        gains: &[f32],
        part: FadePart,
        out: &mut [f32],
    ) -> Result<(), Refusal>
        ensures is { Asked (call.fade_output input.now part.ins gains.now part.position out.old part.outs)
            self.now (filled_of result out.new) }
        ensures same { (x : refusal.Refusal) → result ≡ Err x → out.new ≡ out.old }
    {
        self.tables.fade_output(input, gains, part, out)
    }

    /// See `Tables::bus_sum`.
    pub fn bus_sum(
        &self,
        inputs: &[f32],
        counts: &[usize],
        out: &mut [f32],
        outs: usize,
    ) -> Result<(), Refusal>
        ensures is { Asked (call.bus_sum inputs.now counts.now out.old outs) self.now (filled_of result out.new) }
        ensures same { (x : refusal.Refusal) → result ≡ Err x → out.new ≡ out.old }
    {
        self.tables.bus_sum(inputs, counts, out, outs)
    }

    /// See `Tables::whole_fade_output`.
    pub fn whole_fade_output(
        &self,
        input: &[i32],
        gains: &[u32],
        part: FadePart,
        out: &mut [i32],
    ) -> Result<(), Refusal>
        ensures is { Asked (call.whole_fade input.now part.ins gains.now part.position out.old part.outs)
            self.now (whole.filled_of result out.new) }
        ensures same { (x : refusal.Refusal) → result ≡ Err x → out.new ≡ out.old }
    {
        self.tables.whole_fade_output(input, gains, part, out)
    }

    /// See `Tables::whole_bus_sum`.
    pub fn whole_bus_sum(
        &self,
        inputs: &[i32],
        counts: &[usize],
        out: &mut [i32],
        outs: usize,
    ) -> Result<(), Refusal>
        ensures is { Asked (call.whole_sum inputs.now counts.now out.old outs)
            self.now (whole.filled_of result out.new) }
        ensures same { (x : refusal.Refusal) → result ≡ Err x → out.new ≡ out.old }
    {
        self.tables.whole_bus_sum(inputs, counts, out, outs)
    }

    /// See `Tables::busiest_stretch`.
    pub fn busiest_stretch(&self, width: u64) -> Busiest
        ensures { said result ≡ busiest width (samples self.now.shared.steals.newest) }
    {
        self.tables.busiest_stretch(width)
    }

    /// See `Tables::nodes`.
    pub fn nodes(&self) -> &[Node]
        ensures { result.now ≡ self.now.shared.graph.nodes }
    {
        self.tables.nodes()
    }
}
