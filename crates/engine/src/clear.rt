//! Clearing: the voices whose fade has ended go, then those that are silent.

ghost use Rattle.std.specs.Prelude.{◌≡◌, ◌≤◌, length};
ghost use Rattle.model.specs.Clear.{is_silent};
ghost use Rattle.model.specs.Call.{clear, removed};
ghost use Rattle.engine.specs.Called.{Called};
ghost use Rattle.engine.specs.Freed.{FlagsAre, silent_ids, done_within};

use crate::Tables;
use crate::free::forget_each;
use arrayvec::ArrayVec;
use bus::fade_length;
use graph::audio_graph::AudioGraph;
use node::record::{NodeId, VoiceId};
use std::array;
use synthdef::silent::plan_silent;
use voice::voices::{Voice, Voices};

// Whether the node that stands `place` behind `first` is one of the first `count`, lives and is done.
fn is_done(graph: &AudioGraph, first: NodeId, count: u32, place: usize) -> bool
    ensures { result ≡ done_within graph.now.nodes first.0 count place }
{
    let Ok(place) = u32::try_from(place) else {
        return false;
    };
    place < count && graph.node_past(first, place).is_some_and(|n| n.done)
}

// The done flags of the `count` nodes from `first` on, of which a definition has at most 24.
fn done_flags(graph: &AudioGraph, first: NodeId, count: u32) -> [bool; 24]
    ensures { FlagsAre graph.now.nodes first.0 count result }
{
    array::from_fn(|i| is_done(graph, first, count, i))
}

fn is_silent(graph: &AudioGraph, v: &Voice) -> bool
    ensures { result ≡ is_silent graph.now.nodes v.now }
{
    plan_silent(v.plan, done_flags(graph, v.first, v.count))
}

// The ids of the voices whose done plan is silent, in order of admission.
fn silent_among(graph: &AudioGraph, rows: &[Voice]) -> ArrayVec<VoiceId, 64>
    requires { length rows.now ≤ 64 }
    ensures { result.items ≡ silent_ids graph.now.nodes rows.now }
{
    let mut ids = ArrayVec::new();
    for v in rows {
        if is_silent(graph, v) {
            ids.push(v.id);
        }
    }
    ids
}

impl Tables {
    /// The voices go whose fade has ended, then those that are silent by their done plan (SPEC 13.2), each with its nodes and the edges that touch
    /// them: how many, 0 to 64.
    pub fn free_done_synths(&mut self) -> usize
        ensures { Called clear self.old (removed result) self.new }
    {
        let ended = self.voices.ended(u64::from(fade_length(self.config.rate)));
        forget_each(&mut self.graph, &mut self.voices, ended.as_slice());
        let silent = silent_among(&self.graph, self.voices.as_slice());
        forget_each(&mut self.graph, &mut self.voices, silent.as_slice());
        ended.len() + silent.len()
    }
}
