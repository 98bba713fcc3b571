// A turn of the console.
ghost use Rattle.std.specs.Prelude.{◌≡◌};
ghost use Rattle.console.specs.Console.{turn};
ghost use Rattle.memory.specs.View.{Memory};
ghost use Rattle.memory.specs.Lent.{lent_spawn};
ghost use Rattle.call_console.specs.Called.{memory};
ghost use Rattle.state_words.specs.State.{state_in};
ghost use Rattle.wish_state_words.specs.Waiting.{waiting_in};
ghost use Rattle.c_answer.specs.Console.{ConsoleExported, TurnCells};

use c_answer::answer::settle;
use c_answer::keyboards::{settle_waiting, turn_code, turn_keeps_store};
use piecrag::{EdgeTable, NodeTable, StealTable, VoiceTable, WishTable};
use state_words::{StateWords, state_in};
use wish_state_words::{WaitingWords, waiting_in};

// The oldest wish of the next keyboard that has one is served; `keyboard` becomes that keyboard and `voice` the id of the new voice.
#[unsafe(no_mangle)]
pub extern "C" fn piecrag_turn(
    state: &mut StateWords,
    nodes: &mut NodeTable,
    edges: &mut EdgeTable,
    voices: &mut VoiceTable,
    steals: &mut StealTable,
    waiting: &mut WaitingWords,
    wishes: &WishTable,
    keyboard: &mut usize,
    voice: &mut u64,
) -> u32
    ensures is { (m : Memory) → ConsoleExported turn (memory (lent_spawn (state_in state.old) nodes.old edges.old voices.old steals.old m) (waiting_in waiting.old) wishes.now) state.old waiting.old result (memory (lent_spawn (state_in state.new) nodes.new edges.new voices.new steals.new m) (waiting_in waiting.new) wishes.now) state.new waiting.new }
    ensures cells { (m : Memory) → TurnCells turn (memory (lent_spawn (state_in state.old) nodes.old edges.old voices.old steals.old m) (waiting_in waiting.old) wishes.now) keyboard.old keyboard.new voice.old voice.new }
{
    let s = state_in(state);
    let w = waiting_in(waiting);
    let r = piecrag::turn(s, nodes, edges, voices, steals, w, wishes);
    *keyboard = r.answer.map_or(*keyboard, |served| served.keyboard);
    *voice = r
        .answer
        .and_then(|served| served.answer.ok())
        .map_or(*voice, |id| id.0);
    settle_waiting(waiting, r.wishes, r.answer.is_none());
    settle(
        state,
        r.state,
        turn_keeps_store(r.answer),
        turn_code(r.answer),
    )
}
