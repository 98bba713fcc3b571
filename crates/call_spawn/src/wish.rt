// The four spawns that a host may ask for, each as the wish that `spawn_voice` takes: four functions, since a host knows each by a name of
// its own (docs/CALLS.md, spawn_voice). In the middle the pan is 0.
ghost use Rattle.std.specs.Prelude.{◌≡◌, true, false};
ghost use Rattle.model.specs.Spawn.{middle};
ghost use Rattle.model.specs.Wish.{wish_for};

use node::record::NodeId;
use store::wish::Wish;
use synthdef::def::SynthDef;

// An unmanaged voice in the middle.
pub fn voice_on_bus(def: SynthDef, bus: NodeId, rank: u32) -> Wish
    ensures { result ≡ wish_for false bus middle rank def }
{
    voice_on_bus_panned(def, bus, 0.0, rank)
}

// An unmanaged voice.
pub fn voice_on_bus_panned(def: SynthDef, bus: NodeId, pan: f32, rank: u32) -> Wish
    ensures { result ≡ wish_for false bus pan rank def }
{
    Wish {
        managed: false,
        def,
        bus,
        pan,
        rank,
    }
}

// A managed voice in the middle.
pub fn voice_on_bus_managed(def: SynthDef, bus: NodeId, rank: u32) -> Wish
    ensures { result ≡ wish_for true bus middle rank def }
{
    voice_on_bus_panned_managed(def, bus, 0.0, rank)
}

// A managed voice.
pub fn voice_on_bus_panned_managed(def: SynthDef, bus: NodeId, pan: f32, rank: u32) -> Wish
    ensures { result ≡ wish_for true bus pan rank def }
{
    Wish {
        managed: true,
        ..voice_on_bus_panned(def, bus, pan, rank)
    }
}
