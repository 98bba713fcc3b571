// One voice and one node: a level, the position of a fade, a record. Exported names with parameters of their own: exports that differ in a type
// stay functions of their own. A flag stands beside the cell of which it tells, since C has no option.
ghost use Rattle.std.specs.Prelude.{◌≡◌};
ghost use Rattle.graph_rows.specs.Node.{nodes_in};
ghost use Rattle.voice_rows.specs.Rows.{voices_in};
ghost use Rattle.model.specs.Call as call;
ghost use Rattle.memory.specs.View.{Memory};
ghost use Rattle.memory.specs.Lent.{lent_nodes, lent_params, lent_voice_table};
ghost use Rattle.std.specs.Option.{unwrap_or};
ghost use Rattle.state_words.specs.State.{state_in, some_flag};
ghost use Rattle.c_answer.specs.Exported.{Tells};
ghost use Rattle.piecrag_c_read.specs.Cells.{row_cell};

use crate::cell::put_found;
use c_answer::answer::put_cell;
use node::record::{NodeId, VoiceId};
use piecrag::{NodeTable, VoiceTable};
use state_words::{StateWords, state_in};

pub const VOICE_RECORD_WORDS: usize = 143;

pub const NODE_RECORD_WORDS: usize = 22;

pub type VoiceRecord = [u32; VOICE_RECORD_WORDS];

pub type NodeRecord = [u32; NODE_RECORD_WORDS];

// The level of a voice: `known` becomes 1, or 0 where there is none.
#[unsafe(no_mangle)]
pub extern "C" fn piecrag_voice_level(
    state: &StateWords,
    nodes: &NodeTable,
    voices: &VoiceTable,
    voice: u64,
    known: &mut u32,
    level: &mut f32,
) -> u32
    ensures { (m : Memory) → Tells call.known (call.ask (call.level (record { 0 = voice }))) (lent_params (state_in state.now) nodes.now voices.now m) result (λ l. (known.new ≡ some_flag l) × (level.new ≡ unwrap_or l level.old)) }
{
    let s = state_in(state);
    let l = piecrag::voice_level(s, nodes, voices, VoiceId(voice));
    put_cell(known, level, l);
    0
}

// The position of a voice's fade: `fading` becomes 1, or 0 where there is none.
#[unsafe(no_mangle)]
pub extern "C" fn piecrag_fade_position(
    state: &StateWords,
    voices: &VoiceTable,
    voice: u64,
    fading: &mut u32,
    position: &mut u64,
) -> u32
    ensures { (m : Memory) → Tells call.reached (call.ask (call.position (record { 0 = voice }))) (lent_voice_table (state_in state.now) voices.now m) result (λ p. (fading.new ≡ some_flag p) × (position.new ≡ unwrap_or p position.old)) }
{
    let s = state_in(state);
    let p = piecrag::fade_position(s, voices, VoiceId(voice));
    put_cell(fading, position, p);
    0
}

// The record of a voice: `found` becomes 1, or 0 where there is none.
#[unsafe(no_mangle)]
pub extern "C" fn piecrag_voice(
    state: &StateWords,
    voices: &VoiceTable,
    voice: u64,
    found: &mut u32,
    row: &mut VoiceRecord,
) -> u32
    ensures { (m : Memory) → Tells call.found (call.ask (call.voice (record { 0 = voice }))) (lent_voice_table (state_in state.now) voices.now m) result (λ v. (found.new ≡ some_flag v) × (voices_in row.new ≡ row_cell v (voices_in row.old))) }
{
    let s = state_in(state);
    let r = piecrag::voice(s, voices, VoiceId(voice));
    put_found(found, row, r);
    0
}

// The same of the voice at a place in voice order.
#[unsafe(no_mangle)]
pub extern "C" fn piecrag_voice_at(
    state: &StateWords,
    voices: &VoiceTable,
    place: usize,
    found: &mut u32,
    row: &mut VoiceRecord,
) -> u32
    ensures { (m : Memory) → Tells call.found (call.ask (call.voice_at place)) (lent_voice_table (state_in state.now) voices.now m) result (λ v. (found.new ≡ some_flag v) × (voices_in row.new ≡ row_cell v (voices_in row.old))) }
{
    let s = state_in(state);
    let r = piecrag::voice_at(s, voices, place);
    put_found(found, row, r);
    0
}

// The record of a node: `found` becomes 1, or 0 where there is none.
#[unsafe(no_mangle)]
pub extern "C" fn piecrag_node_record(
    state: &StateWords,
    nodes: &NodeTable,
    node: u32,
    found: &mut u32,
    row: &mut NodeRecord,
) -> u32
    ensures { (m : Memory) → Tells call.found_node (call.ask (call.node_record (record { 0 = node }))) (lent_nodes (state_in state.now) nodes.now m) result (λ n. (found.new ≡ some_flag n) × (nodes_in row.new ≡ row_cell n (nodes_in row.old))) }
{
    let s = state_in(state);
    let r = piecrag::node_record(s, nodes, NodeId(node));
    put_found(found, row, r);
    0
}
