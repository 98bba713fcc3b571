// What can be read of one voice: its level, the position of its fade, its record.
ghost use Rattle.std.specs.Prelude.{◌≡◌};
ghost use Rattle.model.specs.Call as call;
ghost use Rattle.memory.specs.View.{Memory};
ghost use Rattle.memory.specs.Lent.{lent_params, lent_voice_table};
ghost use Rattle.memory.specs.Called.{Called};

use graph_rows::node_row::NodeTable;
use memory::state::State;
use node::record::VoiceId;
use voice::voices::{Voice, VoiceState};
use voice_rows::fade::fading;
use voice_rows::levels::level_at;
use voice_rows::row::{self, VoiceTable, state_at};
use voice_rows::table::{find_voice, voice_count};

// The level of a voice, or none.
pub fn voice_level(s: State, nodes: &NodeTable, voices: &VoiceTable, w: VoiceId) -> Option<f32>
    ensures { (m : Memory) → Called (call.ask (call.level w)) (lent_params s nodes.now voices.now m) (call.known result) (lent_params s nodes.now voices.now m) }
{
    let row = find_voice(voices, s.voices, w)?;
    level_at(voices, row, nodes, s.nodes, s.clock)
}

fn position_of(s: VoiceState) -> Option<u64>
    ensures { result ≡ call.position_of s }
{
    fading(s).map(|f| f.position)
}

// The position of a voice's fade, or none.
pub fn fade_position(s: State, voices: &VoiceTable, w: VoiceId) -> Option<u64>
    ensures { (m : Memory) → Called (call.ask (call.position w)) (lent_voice_table s voices.now m) (call.reached result) (lent_voice_table s voices.now m) }
{
    let row = find_voice(voices, s.voices, w)?;
    position_of(state_at(voices, row))
}

// A voice's record, or none.
pub fn voice(s: State, voices: &VoiceTable, w: VoiceId) -> Option<Voice>
    ensures { (m : Memory) → Called (call.ask (call.voice w)) (lent_voice_table s voices.now m) (call.found result) (lent_voice_table s voices.now m) }
{
    find_voice(voices, s.voices, w).map(|i| row::voice_at(voices, i))
}

// The voice at a place in the order of admission, or none. It is a call of docs/CALLS.md as `edge_at` is, and its one line reads another table.
pub fn voice_at(s: State, voices: &VoiceTable, i: usize) -> Option<Voice>
    ensures { (m : Memory) → Called (call.ask (call.voice_at i)) (lent_voice_table s voices.now m) (call.found result) (lent_voice_table s voices.now m) }
{
    (i < voice_count(voices, s.voices)).then(|| row::voice_at(voices, i))
}
