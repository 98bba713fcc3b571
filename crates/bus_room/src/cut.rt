ghost use Rattle.std.specs.Prelude.{◌≡◌, [], get_or};
ghost use Rattle.voice_rows.specs.Rows.{voice_of, voices_in};
ghost use Rattle.model.specs.Spawn.{recorded};
ghost use Rattle.memory.specs.View.{Memory, shared_of, model_of};
ghost use Rattle.memory.specs.Lent.{lent_spawn};
ghost use Rattle.bus_room.specs.Reclaimed.{removal_log, cut_now, restolen};

use call_free::forget::forget_voice;
use graph_rows::edge_row::EdgeTable;
use graph_rows::node_row::NodeTable;
use memory::parts::{ring_of, with_steals};
use memory::state::State;
use steal_log::{StealTable, log_cut, log_steal};
use voice::voices::VoiceState;
use voice_policy::steals::steal_record;
use voice_rows::levels::level_at;
use voice_rows::row::{VoiceTable, id_at, state_at};

// One steal record more: of the voice in row `row` now, with its level. `cut` is what the record says, and picks no step.
pub fn record_steal(
    s: State,
    nodes: &NodeTable,
    voices: &VoiceTable,
    steals: &mut StealTable,
    row: usize,
    cut: bool,
) -> State
    ensures { (m : Memory) → model_of (lent_spawn result nodes.now m.edges voices.now steals.new m) ≡ restolen (recorded (get_or (voices_in voices.now) row (voice_of [])) cut (shared_of (lent_spawn s nodes.now m.edges voices.now steals.old m))) (model_of (lent_spawn s nodes.now m.edges voices.now steals.old m)) }
{
    let level = level_at(voices, row, nodes, s.nodes, s.clock);
    let ring = log_steal(steals, ring_of(s), steal_record(s.clock, level, cut));
    with_steals(s, ring.total, ring.next)
}

// What the removal of the voice in row `row` leaves in the records: a tracked voice gets a cut record, and the record of a fade is marked
// cut, if it is still held.
fn record_removal(
    s: State,
    nodes: &NodeTable,
    voices: &VoiceTable,
    steals: &mut StealTable,
    row: usize,
) -> State
    ensures { (m : Memory) → model_of (lent_spawn result nodes.now m.edges voices.now steals.new m) ≡ restolen (removal_log (get_or (voices_in voices.now) row (voice_of [])) (shared_of (lent_spawn s nodes.now m.edges voices.now steals.old m))) (model_of (lent_spawn s nodes.now m.edges voices.now steals.old m)) }
{
    match state_at(voices, row) {
        VoiceState::Tracked => record_steal(s, nodes, voices, steals, row, true),
        VoiceState::Fading(f) => {
            let ring = log_cut(steals, ring_of(s), f.number);
            with_steals(s, ring.total, ring.next)
        }
        VoiceState::Loose => s,
    }
}

// The voice in row `row` is removed at once, and the records say so. Its level is that of the store in which it lives.
pub(crate) fn cut_voice(
    s: State,
    nodes: &mut NodeTable,
    edges: &mut EdgeTable,
    voices: &mut VoiceTable,
    steals: &mut StealTable,
    row: usize,
) -> State
    ensures { (m : Memory) → model_of (lent_spawn result nodes.new edges.new voices.new steals.new m) ≡ cut_now (get_or (voices_in voices.old) row (voice_of [])) (model_of (lent_spawn s nodes.old edges.old voices.old steals.old m)) }
{
    let told = record_removal(s, nodes, voices, steals, row);
    let w = id_at(voices, row);
    forget_voice(told, nodes, edges, voices, w)
}
