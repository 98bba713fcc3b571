// A refusal is handed on by `refuse` and not by `?`, since the state goes with every answer.
ghost use Rattle.std.specs.Prelude.{◌≡◌, take};
ghost use Rattle.voice_rows.specs.Rows.{voices_in};
ghost use Rattle.model.specs.Spawn.{state_under, tries};
ghost use Rattle.model.specs.Call.{spawned};
ghost use Rattle.model.specs.Wish.{spawn_in, call_of};
ghost use Rattle.memory.specs.View.{Memory, model_of};
ghost use Rattle.memory.specs.Lent.{lent_spawn};
ghost use Rattle.memory.specs.Called.{Called, Kept};
ghost use Rattle.call_spawn.specs.Room.{Headroom, result_of, budget_for, place_under};

use crate::refuse::spawn_refusal;
use crate::seat::seat_voice;
use crate::steal::{admission, steal_voice};
use bus_room::room::make_room;
use graph_rows::edge_row::EdgeTable;
use graph_rows::node_row::NodeTable;
use memory::state::{CallResult, State, refuse};
use node::record::VoiceId;
use node::refusal::Refusal;
use steal_log::StealTable;
use store::wish::Wish;
use voice::policy::Admission;
use voice::voices::VoiceState;
use voice_rows::row::VoiceTable;
use voice_rows::table::voice_count;

// Under a budget the new voice is tracked; without one nobody is.
fn state_under(budget: Option<usize>) -> VoiceState
    ensures { result ≡ state_under budget }
{
    if budget.is_some() {
        VoiceState::Tracked
    } else {
        VoiceState::Loose
    }
}

// The budget that a spawn goes by: a managed one by the store's, an unmanaged one by none, so that it neither steals nor is tracked.
fn budget_for(s: State, managed: bool) -> Option<usize>
    ensures { result ≡ budget_for managed s.config.budget }
{
    s.config.budget.filter(|_| managed)
}

// How many voices may be removed for a port: none without a budget, else all.
fn most_removed(budget: Option<usize>, voices: &VoiceTable, count: usize) -> usize
    ensures { result ≡ tries budget (take count (voices_in voices.now)) }
{
    if budget.is_some() {
        voice_count(voices, count)
    } else {
        0
    }
}

// The new voice gets the lowest free port. Where there is none, the budget says how many voices of the bus may be removed for one; no tracked
// voice of a higher rank than the new voice's is among them.
fn place(
    s: State,
    nodes: &mut NodeTable,
    edges: &mut EdgeTable,
    voices: &mut VoiceTable,
    steals: &mut StealTable,
    budget: Option<usize>,
    w: Wish,
) -> CallResult<Result<VoiceId, Refusal>>
    requires { (m : Memory) → Headroom w.def (model_of (lent_spawn s nodes.old edges.old voices.old steals.old m)) }
    ensures { (m : Memory) → result_of result.answer (lent_spawn result.state nodes.new edges.new voices.new steals.new m) ≡ place_under budget (spawn_in w) (model_of (lent_spawn s nodes.old edges.old voices.old steals.old m)) }
{
    let how = state_under(budget);
    let fuel = most_removed(budget, voices, s.voices);
    let room = make_room(s, nodes, edges, voices, steals, w.bus, w.rank, fuel);
    match room.answer {
        Some(port) => seat_voice(room.state, nodes, edges, voices, w, how, port),
        None => refuse(room.state, Refusal::NoPort),
    }
}

// The spawn that `w` asks for: the refusals; admission, with a victim if it asks for one; then the lowest port without an edge.
pub fn spawn_voice(
    s: State,
    nodes: &mut NodeTable,
    edges: &mut EdgeTable,
    voices: &mut VoiceTable,
    steals: &mut StealTable,
    w: Wish,
) -> CallResult<Result<VoiceId, Refusal>>
    ensures is { (m : Memory) → Called (call_of w) (lent_spawn s nodes.old edges.old voices.old steals.old m) (spawned result.answer) (lent_spawn result.state nodes.new edges.new voices.new steals.new m) }
    ensures same { (m : Memory) → Kept (spawned result.answer) (lent_spawn s nodes.old edges.old voices.old steals.old m) (lent_spawn result.state nodes.new edges.new voices.new steals.new m) }
{
    if let Err(why) = spawn_refusal(s, nodes, edges, voices, w) {
        return refuse(s, why);
    }
    let budget = budget_for(s, w.managed);
    match admission(s, nodes, voices, budget, w.bus, w.rank) {
        Admission::Reject => refuse(s, Refusal::Rejected),
        Admission::Admit => place(s, nodes, edges, voices, steals, budget, w),
        Admission::Steal { place: _, voice } => {
            let left = steal_voice(s, nodes, edges, voices, steals, voice);
            place(left, nodes, edges, voices, steals, budget, w)
        }
    }
}
