ghost use Rattle.std.specs.Prelude.{◌≡◌};
ghost use Rattle.console.specs.Console.{turn};
ghost use Rattle.memory.specs.View.{Memory};
ghost use Rattle.memory.specs.Lent.{lent_spawn};
ghost use Rattle.call_console.specs.Called.{memory, turn_answer, Called, Kept};

use crate::queues::{ConsoleResult, WishState, drop_oldest, next_keyboard, oldest_wish};
use call_spawn::spawn::spawn_voice;
use graph_rows::edge_row::EdgeTable;
use graph_rows::node_row::NodeTable;
use memory::state::State;
use node::record::VoiceId;
use node::refusal::Refusal;
use steal_log::StealTable;
use voice_rows::row::VoiceTable;
use wish_rows::row::WishTable;

// What a turn served: the keyboard, and the spawn's answer.
#[derive(Clone, Copy)]
pub struct Served {
    pub keyboard: usize,
    pub answer: Result<VoiceId, Refusal>,
}

// A turn, which answers what it served, if a wish waited: the oldest wish of the next keyboard, going round, that has one is served. A spawn that the store refuses is served too.
pub fn turn(
    s: State,
    nodes: &mut NodeTable,
    edges: &mut EdgeTable,
    voices: &mut VoiceTable,
    steals: &mut StealTable,
    w: WishState,
    wishes: &WishTable,
) -> ConsoleResult<Option<Served>>
    ensures is { (m : Memory) → Called turn (memory (lent_spawn s nodes.old edges.old voices.old steals.old m) w wishes.now) (turn_answer result.answer) (memory (lent_spawn result.state nodes.new edges.new voices.new steals.new m) result.wishes wishes.now) }
    ensures same { (m : Memory) → Kept (turn_answer result.answer) (memory (lent_spawn s nodes.old edges.old voices.old steals.old m) w wishes.now) (memory (lent_spawn result.state nodes.new edges.new voices.new steals.new m) result.wishes wishes.now) }
{
    let Some(keyboard) = next_keyboard(w) else {
        return ConsoleResult {
            state: s,
            wishes: w,
            answer: None,
        };
    };
    let oldest = oldest_wish(w, wishes, keyboard);
    let left = drop_oldest(w, keyboard);
    let spawned = spawn_voice(s, nodes, edges, voices, steals, oldest);
    ConsoleResult {
        state: spawned.state,
        wishes: left,
        answer: Some(Served {
            keyboard,
            answer: spawned.answer,
        }),
    }
}
