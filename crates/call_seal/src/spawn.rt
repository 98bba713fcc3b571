// The spawn on a board: which of the two, and all its arguments, go together as a wish does. Every seal closes the unmanaged one, and the
// managed one that is on another bus or larger than the profile says; before all else that a spawn refuses. A refusal is handed on by `refuse`
// and not by `?`, since the state goes with every answer.
ghost use Rattle.std.specs.Prelude.{List, ℕ};
ghost use Rattle.model.specs.Wish.{call_of};
ghost use Rattle.memory.specs.View.{Memory};
ghost use Rattle.memory.specs.Lent.{lent_spawn};
ghost use Rattle.call_console.specs.declared.queues.WishState.{WishState};
ghost use Rattle.call_seal.specs.Board.{board, on_store, BoardCalled, BoardKept, spawn_answer};

use crate::closing::{BoardRefusal, open, shuts_spawn};
use call_spawn::spawn::spawn_voice;
use graph_rows::edge_row::EdgeTable;
use graph_rows::node_row::NodeTable;
use memory::state::{CallResult, State, refuse};
use node::record::VoiceId;
use node::refusal::Refusal;
use sealed::profile::Seal;
use steal_log::StealTable;
use store::wish::Wish;
use voice_rows::row::VoiceTable;

// The spawn that `w` is for, unless the seal closes it.
pub fn spawn(
    x: Seal,
    s: State,
    nodes: &mut NodeTable,
    edges: &mut EdgeTable,
    voices: &mut VoiceTable,
    steals: &mut StealTable,
    w: Wish,
) -> CallResult<Result<VoiceId, BoardRefusal<Refusal>>>
    ensures is { (m : Memory) (p : WishState) (c : List ℕ) → BoardCalled (on_store (call_of w)) (board (lent_spawn s nodes.old edges.old voices.old steals.old m) p c x) (spawn_answer result.answer) (board (lent_spawn result.state nodes.new edges.new voices.new steals.new m) p c x) }
    ensures same { (m : Memory) (p : WishState) (c : List ℕ) → BoardKept (spawn_answer result.answer) (board (lent_spawn s nodes.old edges.old voices.old steals.old m) p c x) (board (lent_spawn result.state nodes.new edges.new voices.new steals.new m) p c x) }
{
    if shuts_spawn(x, w.managed, w.bus, w.def.nodes.count, w.def.edges.count) {
        return refuse(s, BoardRefusal::Closed);
    }
    open(spawn_voice(s, nodes, edges, voices, steals, w))
}
