// The events that are due, row by row where they stand; then they are removed from the queue together.
ghost use Rattle.std.specs.Prelude.{◌≡◌, ◌≤◌, length, take};
ghost use Rattle.scheduler.specs.Queue.{taken_before, left_after};
ghost use Rattle.model.specs.Render.{any_free, apply_events};
ghost use Rattle.event_table.specs.Rows.{events_in};
ghost use Rattle.graph_rows.specs.Node.{nodes_in};
ghost use Rattle.voice_rows.specs.Rows.{voices_in};
ghost use Rattle.memory.specs.View.{Memory, model_of};
ghost use Rattle.memory.specs.Lent.{lent_render};
ghost use Rattle.call_render.specs.Applying.{Left, Handed};

use crate::apply::{Freed, apply_event, is_free};
use call_free::forget::forget_voices;
use call_param::number::outcome_number;
use event_table::queue::{is_due, remove_due};
use event_table::row::{EventTable, event_at};
use graph_rows::edge_row::EdgeTable;
use graph_rows::node_row::NodeTable;
use lists::rows::Table;
use memory::parts::with_events;
use memory::state::{CallResult, State};
use voice_rows::row::VoiceTable;

// Whether any of the due events is a free, of a known voice or not.
pub(crate) fn any_free(t: &[u32], count: usize, deadline: u64) -> bool
    ensures { result ≡ any_free (taken_before deadline (take count (events_in t.now))) }
{
    (0..count.min(t.len() / 15)).any(|i| is_due(t, i, deadline) && is_free(event_at(t, i).action))
}

// The due events are applied to the nodes, in order, and the voices that they free are noted in `freed`. What became of each goes into `out`:
// how many there were.
fn apply_due(
    s: State,
    nodes: &mut NodeTable,
    voices: &VoiceTable,
    t: &EventTable,
    deadline: u64,
    freed: &mut Freed,
    out: &mut [u8],
) -> usize
    requires room { 256 ≤ length out.old }
    requires none { (freed.old.count ≡ 0) × (length freed.old.rows ≡ 256) }
    ensures { Left (take s.nodes (nodes_in nodes.old)) (take s.voices (voices_in voices.now)) (taken_before deadline (take s.events (events_in t.now))) (take s.nodes (nodes_in nodes.new)) freed.new out.old out.new result }
{
    let mut taken = 0;
    // By the rows' numbers: a row is so many words of a lent table, and there is no slice of rows. `taken` is the answer, and so the place in `out`.
    for i in 0..s.events.min(256) {
        if is_due(t, i, deadline) {
            let outcome = apply_event(s, nodes, voices, event_at(t, i), freed);
            out[taken] = outcome_number(outcome);
            taken += 1;
        }
    }
    taken
}

// The due events are removed from the queue and applied, and what became of each stands in `out`: how many they were.
pub(crate) fn apply_events(
    s: State,
    nodes: &mut NodeTable,
    edges: &mut EdgeTable,
    voices: &mut VoiceTable,
    events: &mut EventTable,
    deadline: u64,
    out: &mut [u8],
) -> CallResult<usize>
    requires { 256 ≤ length out.old }
    ensures { (m : Memory) → Handed deadline (model_of (lent_render s nodes.old edges.old m.order voices.old events.old m)) (model_of (lent_render result.state nodes.new edges.new m.order voices.new events.new m)) out.old out.new result.answer }
{
    let mut freed = Table::empty(0);
    let taken = apply_due(s, nodes, voices, events, deadline, &mut freed, out);
    let rest = remove_due(events, s.events, deadline);
    let queued = with_events(s, rest);
    let state = forget_voices(queued, nodes, edges, voices, freed.as_slice());
    CallResult {
        state,
        answer: taken,
    }
}
