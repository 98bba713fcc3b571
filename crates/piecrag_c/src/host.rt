// Making, prepare and scheduling. For C arguments are single numbers: a budget is a flag and a number, an action and a shape are a tag each.
ghost use Rattle.std.specs.Prelude.{◌≡◌, true, false};
ghost use Rattle.graph.specs.Tables.{answer_of};
ghost use Rattle.model.specs.Call as call;
ghost use Rattle.model.specs.Make.{new_model, config_of, refusal_of};
ghost use Rattle.memory.specs.View.{Memory, model_of};
ghost use Rattle.memory.specs.Lent.{lent_state, lent_order, lent_events};
ghost use Rattle.memory.specs.Called.{answered, keeps};
ghost use Rattle.state_words.specs.State.{state_in, budget_in};
ghost use Rattle.model.specs.Numbers.{number_in};
ghost use Rattle.c_answer.specs.Exported.{Exported, code};
ghost use Rattle.c_answer.specs.Argument.{glide_in, action_in, making_in};

use c_answer::answer::settle_result;
use c_answer::argument::{action_in, glide_in, making_in};
use node::record::VoiceId;
use piecrag::{EdgeTable, EventTable, NodeTable, OrderTable};
use state_words::{StateWords, state_in};

// A new store, whatever stands in the words of its tables.
#[unsafe(no_mangle)]
pub extern "C" fn piecrag_make(
    state: &mut StateWords,
    rate: f32,
    block: usize,
    limited: u32,
    budget: usize,
    policy: u32,
    scope: u32,
    table: u32,
) -> u32
    ensures answer { result ≡ code (answered (answer_of (refusal_of (making_in rate block (budget_in limited budget) policy scope table)))) }
    ensures model { keeps (number_in (answered (answer_of (refusal_of (making_in rate block (budget_in limited budget) policy scope table))))) ≡ false → (m : Memory) → model_of (lent_state (state_in state.new) m) ≡ new_model (config_of (making_in rate block (budget_in limited budget) policy scope table)) }
    ensures same { keeps (number_in (answered (answer_of (refusal_of (making_in rate block (budget_in limited budget) policy scope table))))) ≡ true → state.new ≡ state.old }
{
    let asked = making_in(rate, block, limited, budget, policy, scope, table);
    settle_result(state, piecrag::make(asked))
}

#[unsafe(no_mangle)]
pub extern "C" fn piecrag_prepare(
    state: &mut StateWords,
    nodes: &NodeTable,
    edges: &EdgeTable,
    order: &mut OrderTable,
) -> u32
    ensures { (m : Memory) → Exported call.prepare (lent_order (state_in state.old) nodes.now edges.now order.old m) state.old result (lent_order (state_in state.new) nodes.now edges.now order.new m) state.new }
{
    let s = state_in(state);
    settle_result(state, piecrag::prepare(s, nodes, edges, order))
}

// An action for a voice at the sample `time`: `value` is the value, the target of the glide or the gate. A value and a glide are for the
// parameter `name`.
#[unsafe(no_mangle)]
pub extern "C" fn piecrag_schedule(
    state: &mut StateWords,
    events: &mut EventTable,
    time: u64,
    voice: u64,
    name: &[u8],
    action: u32,
    value: f32,
    seconds: f32,
    shape: u32,
    curve: f32,
    space: u32,
) -> u32
    ensures { (m : Memory) → Exported (call.schedule time (record { 0 = voice }) name.now (action_in action (glide_in value seconds shape curve space))) (lent_events (state_in state.old) events.old m) state.old result (lent_events (state_in state.new) events.new m) state.new }
{
    let s = state_in(state);
    let asked = action_in(action, glide_in(value, seconds, shape, curve, space));
    let r = piecrag::schedule(s, events, time, VoiceId(voice), name, asked);
    settle_result(state, r)
}
