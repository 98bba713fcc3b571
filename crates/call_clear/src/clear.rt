// Each lent table and its count are parameters of their own: a signature shows what a call may touch.
ghost use Rattle.std.specs.Prelude.{Bool, take};
ghost use Rattle.voice.specs.declared.voices.Voice.{Voice};
ghost use Rattle.graph_rows.specs.Node.{nodes_in};
ghost use Rattle.voice_rows.specs.Rows.{voices_in};
ghost use Rattle.model.specs.Call.{clear, removed};
ghost use Rattle.model.specs.Clear.{is_silent};
ghost use Rattle.memory.specs.View.{Memory};
ghost use Rattle.memory.specs.Lent.{lent_voices};
ghost use Rattle.memory.specs.Called.{Called};
ghost use Rattle.call_clear.specs.Passes.{has_faded, Tells, Gathered};

use crate::silence::Flags;
use bus::fade_length;
use call_free::forget::forget_voices;
use graph_rows::edge_row::EdgeTable;
use graph_rows::node_row::NodeTable;
use lists::rows::Table;
use memory::state::{CallResult, State};
use voice_rows::fade::ended_at;
use voice_rows::row::{VoiceTable, id_at};

// Ids of voices, of which there are at most 64: a table in fixed memory, since there is no heap for a list.
type Leaving = Table<u64, 64>;

// The ids of those of the first `count` voices for whose row `leaves` answers true, in voice order. By the places, and pushed one by one: a
// row is so many words of a lent table, and without a heap there is nothing to collect into.
fn leaving_ids<F: Fn(usize) -> bool>(voices: &VoiceTable, count: usize, leaves: F) -> Leaving
    requires { F.IsAlwaysCallable leaves }
    ensures { (q : Voice → Bool) → Tells (F.post leaves) voices.now q → Gathered q (take count (voices_in voices.now)) result }
{
    let mut leaving = Table::empty(0);
    for i in 0..count.min(64) {
        if leaves(i) {
            leaving.push(id_at(voices, i).0);
        }
    }
    leaving
}

// Of the first `count` voices those whose fade has ended.
fn faded_ids(voices: &VoiceTable, count: usize, len: u64) -> Leaving
    ensures { Gathered (has_faded len) (take count (voices_in voices.now)) result }
{
    leaving_ids(voices, count, |i| ended_at(voices, i, len))
}

// Of the first `count` voices those whose done plan is silent.
fn silent_ids(nodes: &NodeTable, n: usize, voices: &VoiceTable, count: usize) -> Leaving
    ensures { Gathered (is_silent (take n (nodes_in nodes.now))) (take count (voices_in voices.now)) result }
{
    let flags = Flags::of(nodes, n);
    leaving_ids(voices, count, |i| flags.is_silent(voices, i))
}

// The voices whose fade has ended are removed, then those whose done plan is silent; the answer is how many. Each time they are gathered
// first and removed together, so that each table is closed up once.
pub fn free_done_synths(
    s: State,
    nodes: &mut NodeTable,
    edges: &mut EdgeTable,
    voices: &mut VoiceTable,
) -> CallResult<usize>
    ensures { (m : Memory) → Called clear (lent_voices s nodes.old edges.old voices.old m) (removed result.answer) (lent_voices result.state nodes.new edges.new voices.new m) }
{
    let len = u64::from(fade_length(s.config.rate));
    let faded = faded_ids(voices, s.voices, len);
    let left = forget_voices(s, nodes, edges, voices, faded.as_slice());
    let silent = silent_ids(nodes, left.nodes, voices, left.voices);
    let state = forget_voices(left, nodes, edges, voices, silent.as_slice());
    CallResult {
        state,
        answer: faded.as_slice().len() + silent.as_slice().len(),
    }
}
