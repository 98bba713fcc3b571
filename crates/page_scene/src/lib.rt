//! The scene whose page docs/SPEC.md 14.2 shows, played on a store.
#![tactic(auto)]

ghost use Rattle.std.specs.Prelude.{◌≡◌, false};
ghost use Rattle.model.specs.Call.{page_answer};
ghost use Rattle.model.specs.Make.{new_model};
ghost use Rattle.model.specs.Scene.{plain, further, page_config, printed};
ghost use Rattle.engine.specs.Called.{page_answered};
ghost use Rattle.page_scene.specs.Played as played;

use engine::reach::Store;
use graph::host::HostNode;
use node::name::name_of;
use node::record::NodeId;
use node::refusal::Refusal;
use store::config::Making;
use synthdef::def::{DefEdge, DefEdges, DefNode, DefNodes, NO_PORT, Param, Params, SynthDef};
use voice::policy::{BudgetScope, StealPolicy};

// A node that has no ports and takes nothing.
fn tone_node() -> DefNode
    ensures { result ≡ plain "Tone" false false }
{
    DefNode {
        kind: name_of(b"Tone"),
        ports: 0,
        required: 0,
        takes_values: false,
        takes_glides: false,
        in_port: NO_PORT,
        level_port: NO_PORT,
        amp_port: NO_PORT,
    }
}

// A definition of one node.
fn tone() -> SynthDef
    ensures { result ≡ played.tone }
{
    let mut nodes = DefNodes::empty(tone_node());
    nodes.push(tone_node());
    let edges = DefEdges::empty(DefEdge {
        from: 0,
        to: 0,
        port: 0,
    });
    let params = Params::empty(Param {
        name: name_of(b""),
        node: 0,
    });
    SynthDef {
        nodes,
        edges,
        params,
        output: 0,
    }
}

// A bus of 3 ports, which is the sink.
fn open(store: &mut Store)
    ensures { store.new ≡ further played.opening store.old }
{
    let bus = HostNode {
        ports: 3,
        required: 0,
        takes_values: false,
        takes_glides: false,
    };
    let _ = store.add_node(b"Bus", bus);
    let _ = store.set_sink(NodeId(0));
}

// A managed spawn, a prepare and a render.
fn turn(store: &mut Store)
    ensures { store.new ≡ further played.turn store.old }
{
    let _ = store.spawn_voice_on_bus_managed(&tone(), NodeId(0), 0);
    let _ = store.prepare();
    let mut outcomes = [0u8; 256];
    store.render(&mut outcomes);
}

/// The page after three turns, in `out`, is the one that the scope shows; refused with 17 if `out` is shorter.
pub fn scene_page(out: &mut [u8]) -> Result<usize, Refusal>
    ensures { page_answered result out.new ≡ page_answer printed out.old }
{
    let mut store = Store::make(Making {
        rate: 8000.0,
        block: 16,
        budget: Some(2),
        policy: StealPolicy::Oldest,
        scope: BudgetScope::Global,
        table: false,
    })?;
    open(&mut store);
    turn(&mut store);
    turn(&mut store);
    turn(&mut store);
    store.page(out)
}
