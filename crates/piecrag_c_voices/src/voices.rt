// Voices that sound: freed, cleared, given values and glides; reports, and the render of a block. For C arguments are single numbers: a glide
// is five of them. Exported names with parameters of their own, so that a value and a glide stay two functions.
ghost use Rattle.std.specs.Prelude.{◌≡◌, false};
ghost use Rattle.words.specs.Fields.{is_set};
ghost use Rattle.node.specs.declared.order.LastOrder.TheVariants as last;
ghost use Rattle.model.specs.Call as call;
ghost use Rattle.model.specs.Order.{is_yes};
ghost use Rattle.memory.specs.View.{Memory};
ghost use Rattle.memory.specs.Lent.{lent_voices, lent_params, lent_render};
ghost use Rattle.state_words.specs.State.{state_in};
ghost use Rattle.c_answer.specs.Exported.{Exported, Tells, Took, sound_cell, taken_cell};
ghost use Rattle.c_answer.specs.Argument.{glide_in};

use c_answer::answer::{render_code, render_kept, result_code, settle, sound_cell, taken_cell};
use c_answer::argument::glide_in;
use node::record::{NodeId, VoiceId};
use piecrag::{EdgeTable, EventTable, NodeTable, OrderTable, VoiceTable, outcome_number};
use state_words::{StateWords, put_state, state_in};

// The voice is removed, with its nodes and edges; an unknown one answers 1.
#[unsafe(no_mangle)]
pub extern "C" fn piecrag_free_voice(
    state: &mut StateWords,
    nodes: &mut NodeTable,
    edges: &mut EdgeTable,
    voices: &mut VoiceTable,
    voice: u64,
) -> u32
    ensures { (m : Memory) → Exported (call.free (record { 0 = voice })) (lent_voices (state_in state.old) nodes.old edges.old voices.old m) state.old result (lent_voices (state_in state.new) nodes.new edges.new voices.new m) state.new }
{
    let s = state_in(state);
    let r = piecrag::free_voice(s, nodes, edges, voices, VoiceId(voice));
    put_state(state, r.state);
    u32::from(outcome_number(r.answer))
}

// The voices whose fade has ended or whose output is silent go; `removed` becomes how many they were.
#[unsafe(no_mangle)]
pub extern "C" fn piecrag_free_done_synths(
    state: &mut StateWords,
    nodes: &mut NodeTable,
    edges: &mut EdgeTable,
    voices: &mut VoiceTable,
    removed: &mut usize,
) -> u32
    ensures is { (m : Memory) → Exported call.clear (lent_voices (state_in state.old) nodes.old edges.old voices.old m) state.old result (lent_voices (state_in state.new) nodes.new edges.new voices.new m) state.new }
    ensures cell { (m : Memory) → Tells call.removed call.clear (lent_voices (state_in state.old) nodes.old edges.old voices.old m) result (λ n. removed.new ≡ n) }
{
    let s = state_in(state);
    let r = piecrag::free_done_synths(s, nodes, edges, voices);
    *removed = r.answer;
    put_state(state, r.state);
    0
}

// A value for a parameter of a voice, now.
#[unsafe(no_mangle)]
pub extern "C" fn piecrag_set_voice_param(
    state: &StateWords,
    nodes: &mut NodeTable,
    voices: &VoiceTable,
    voice: u64,
    name: &[u8],
    value: f32,
) -> u32
    ensures is { (m : Memory) → Exported (call.order (record { 0 = voice }) name.now (last.Value value)) (lent_params (state_in state.now) nodes.old voices.now m) state.now result (lent_params (state_in state.now) nodes.new voices.now m) state.now }
    ensures same { (m : Memory) → Tells call.ordered (call.order (record { 0 = voice }) name.now (last.Value value)) (lent_params (state_in state.now) nodes.old voices.now m) result (λ o. is_yes o ≡ false → nodes.new ≡ nodes.old) }
{
    let s = state_in(state);
    let o = piecrag::set_voice_param(s, nodes, voices, VoiceId(voice), name, value);
    u32::from(outcome_number(o))
}

// A glide for a parameter of a voice, from now on.
#[unsafe(no_mangle)]
pub extern "C" fn piecrag_set_voice_param_glide(
    state: &StateWords,
    nodes: &mut NodeTable,
    voices: &VoiceTable,
    voice: u64,
    name: &[u8],
    target: f32,
    seconds: f32,
    shape: u32,
    curve: f32,
    space: u32,
) -> u32
    ensures is { (m : Memory) → Exported (call.order (record { 0 = voice }) name.now (last.Glide (glide_in target seconds shape curve space))) (lent_params (state_in state.now) nodes.old voices.now m) state.now result (lent_params (state_in state.now) nodes.new voices.now m) state.now }
    ensures same { (m : Memory) → Tells call.ordered (call.order (record { 0 = voice }) name.now (last.Glide (glide_in target seconds shape curve space))) (lent_params (state_in state.now) nodes.old voices.now m) result (λ o. is_yes o ≡ false → nodes.new ≡ nodes.old) }
{
    let s = state_in(state);
    let g = glide_in(target, seconds, shape, curve, space);
    let o = piecrag::set_voice_param_glide(s, nodes, voices, VoiceId(voice), name, g);
    u32::from(outcome_number(o))
}

// The block that a node has written, and whether it is done.
#[unsafe(no_mangle)]
pub extern "C" fn piecrag_report(
    state: &StateWords,
    nodes: &mut NodeTable,
    voices: &VoiceTable,
    node: u32,
    channels: usize,
    samples: &[f32],
    done: u32,
) -> u32
    ensures { (m : Memory) → Exported (call.report (record { 0 = node }) channels samples.now (is_set done)) (lent_params (state_in state.now) nodes.old voices.now m) state.now result (lent_params (state_in state.now) nodes.new voices.now m) state.now }
{
    let s = state_in(state);
    let a = piecrag::report(s, nodes, voices, NodeId(node), channels, samples, done != 0);
    result_code(a)
}

// A block: the events that are due are applied, fades move, the clock advances. `sounding` becomes 1 or 0, `taken` how many events there
// were; what became of each goes into `outcomes`.
#[unsafe(no_mangle)]
pub extern "C" fn piecrag_render(
    state: &mut StateWords,
    nodes: &mut NodeTable,
    edges: &mut EdgeTable,
    order: &mut OrderTable,
    voices: &mut VoiceTable,
    events: &mut EventTable,
    outcomes: &mut [u8],
    sounding: &mut u32,
    taken: &mut usize,
) -> u32
    ensures is { (m : Memory) → Exported (call.render outcomes.old) (lent_render (state_in state.old) nodes.old edges.old order.old voices.old events.old m) state.old result (lent_render (state_in state.new) nodes.new edges.new order.new voices.new events.new m) state.new }
    ensures cell { (m : Memory) → Tells (λ t. call.rendered t.answer t.taken outcomes.new) (call.render outcomes.old) (lent_render (state_in state.old) nodes.old edges.old order.old voices.old events.old m) result (λ (t : Took). (sounding.new ≡ sound_cell t.answer sounding.old) × (taken.new ≡ taken_cell t.answer t.taken taken.old)) }
{
    let s = state_in(state);
    let r = piecrag::render(s, nodes, edges, order, voices, events, outcomes);
    *sounding = sound_cell(r.answer, *sounding);
    *taken = taken_cell(r.answer, r.taken, *taken);
    settle(state, r.state, render_kept(r.answer), render_code(r.answer))
}
