// The call that frees a voice.
ghost use Rattle.std.specs.Prelude.{◌≡◌, take, None, find};
ghost use Rattle.model.specs.Call.{free, ordered};
ghost use Rattle.voice.specs.Voice.{is_voice};
ghost use Rattle.voice_rows.specs.Rows.{voices_in};
ghost use Rattle.memory.specs.View.{Memory};
ghost use Rattle.memory.specs.Lent.{lent_voices};
ghost use Rattle.memory.specs.Called.{Called};

use crate::forget::forget_voice;
use graph_rows::edge_row::EdgeTable;
use graph_rows::node_row::NodeTable;
use memory::state::{CallResult, State};
use node::record::VoiceId;
use store::answer::Outcome;
use voice_rows::row::VoiceTable;
use voice_rows::table::find_voice;

// The voice `w` is freed: applied, or no such voice. An unknown voice leaves the very state and words.
// An `Outcome` and no result: model and ledger have its four cases by their names.
pub fn free_voice(
    s: State,
    nodes: &mut NodeTable,
    edges: &mut EdgeTable,
    voices: &mut VoiceTable,
    w: VoiceId,
) -> CallResult<Outcome>
    ensures is { (m : Memory) → Called (free w) (lent_voices s nodes.old edges.old voices.old m) (ordered result.answer) (lent_voices result.state nodes.new edges.new voices.new m) }
    ensures same { find (is_voice w) (take s.voices (voices_in voices.old)) ≡ None → (m : Memory) → lent_voices result.state nodes.new edges.new voices.new m ≡ lent_voices s nodes.old edges.old voices.old m }
{
    if find_voice(voices, s.voices, w).is_none() {
        return CallResult {
            state: s,
            answer: Outcome::NoVoice,
        };
    }
    let state = forget_voice(s, nodes, edges, voices, w);
    CallResult {
        state,
        answer: Outcome::Applied,
    }
}
