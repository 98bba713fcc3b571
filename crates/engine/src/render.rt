//! Render: the events that are due, in order, a prepare where one of them was a free, and the block.

ghost use Rattle.std.specs.Prelude.{◌≡◌, ◌≤◌, length};
ghost use Rattle.lists.specs.Written.{written};
ghost use Rattle.model.specs.SharedState.{SharedState, sounding};
ghost use Rattle.model.specs.Order.{outcome_number};
ghost use Rattle.model.specs.Render as model;
ghost use Rattle.model.specs.Render.{Heard, heard, is_free, any_free, outcome_of, outcomes};
ghost use Rattle.store.specs.declared.answer.Rendered.TheVariants as rendered_as;
ghost use Rattle.model.specs.Call.{render, rendered};
ghost use Rattle.engine.specs.Called.{Called};
ghost use Rattle.engine.specs.Parts.{store_with};
ghost use Rattle.engine.specs.Blocks.{readied, block_to};

use crate::Tables;
use crate::free::free;
use crate::order::order_voice;
use graph::audio_graph::AudioGraph;
use node::order::EventAction;
use node::refusal::Refusal;
use scheduler::event::{Event, param_order};
use store::answer::{Outcome, Rendered};
use voice::voices::Voices;

/// What a render answers, and how many events it took, 0 to 256.
#[derive(Clone, Copy)]
pub struct Rendering {
    pub answer: Rendered,
    pub taken: usize,
}

fn refused(why: Refusal) -> Rendering
    ensures { result ≡ record { answer = rendered_as.Refused why; taken = 0 } }
{
    Rendering {
        answer: Rendered::Refused(why),
        taken: 0,
    }
}

fn is_free(e: &Event) -> bool
    ensures { result ≡ is_free e.now.action }
{
    matches!(e.action, EventAction::Free)
}

fn any_free(events: &[Event]) -> bool
    ensures { result ≡ any_free events.now }
{
    events.iter().any(is_free)
}

// 0 applied, or the first that is true of 1 no such voice, 2 no such parameter, 3 the node takes none of that sort.
fn outcome_number(outcome: Outcome) -> u8
    ensures { result ≡ outcome_number outcome }
{
    outcome as u8
}

// One event, and what became of it.
fn apply_event(graph: &mut AudioGraph, voices: &mut Voices, e: &Event) -> Outcome
    ensures answer { (d : SharedState) → result ≡ outcome_of e.now (store_with graph.old voices.old d) }
    ensures store { (d : SharedState) → store_with graph.new voices.new d ≡ model.apply_event e.now (store_with graph.old voices.old d) }
{
    if is_free(e) {
        return free(graph, voices, e.voice);
    }
    let p = param_order(*e);
    order_voice(graph, voices, e.voice, p.name, p.order)
}

// The events in order; what became of each stands in `out`, and the later entries stay.
fn apply_events(graph: &mut AudioGraph, voices: &mut Voices, events: &[Event], out: &mut [u8])
    requires { length events.now ≤ length out.old }
    ensures store { (d : SharedState) → store_with graph.new voices.new d ≡ model.apply_events events.now (store_with graph.old voices.old d) }
    ensures told { (d : SharedState) → out.new ≡ written (outcomes events.now (store_with graph.old voices.old d)) out.old }
{
    for (i, e) in events.iter().enumerate() {
        out[i] = outcome_number(apply_event(graph, voices, e));
    }
}

impl Tables {
    // What is heard: a prepared graph with a sink sounds.
    fn heard(&self) -> Rendered
        ensures { result ≡ heard (sounding self.now.shared) }
    {
        if self.graph.is_prepared() && self.graph.sink().is_some() {
            Rendered::Sounding
        } else {
            Rendered::Silent
        }
    }

    // Before the block: the graph is prepared, if there was a free.
    fn ready(&mut self, freed: bool) -> Rendered
        ensures { ◌≡◌ {A = Heard} (record { answer = result; model = self.new }) (readied freed self.old) }
    {
        if !freed {
            return self.heard();
        }
        match self.graph.prepare() {
            Ok(()) => self.heard(),
            Err(why) => Rendered::Unprepared(why),
        }
    }

    // The block: the fades move if it sounds, and the clock is then at `end`.
    fn finish(&mut self, answer: Rendered, end: u64)
        ensures { self.new ≡ block_to end answer self.old }
    {
        if matches!(answer, Rendered::Sounding) {
            self.voices.move_fades(self.config.block as u64);
        }
        self.clock = end;
    }

    /// Renders a block (SPEC 12): the events before its end, in order, what became of each in `out`; a prepare, if one of them was a free; the fades,
    /// if the block sounds; and the clock. What sounds is the host's to make, from the processing order. Refused, and nothing changes, with 15 if
    /// the clock would pass 2^64 - 1, 17 if `out` has fewer than 256 entries.
    pub fn render(&mut self, out: &mut [u8]) -> Rendering
        ensures { Called (render out.old) self.old (rendered result.answer result.taken out.new) self.new }
    {
        let Some(end) = self.clock.checked_add(self.config.block as u64) else {
            return refused(Refusal::ClockEnd);
        };
        if out.len() < 256 {
            return refused(Refusal::ShortBuffer);
        }
        let due = self.scheduler.due(end);
        let taken = due.len();
        let freed = any_free(due);
        apply_events(&mut self.graph, &mut self.voices, due, out);
        self.scheduler.drain_before(end);
        let answer = self.ready(freed);
        self.finish(answer, end);
        Rendering { answer, taken }
    }
}
