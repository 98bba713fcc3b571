// How many rows of a table count, an edge, what feeds a port, and the clock. Exported names, so that calls that are alike stay functions of
// their own, as `piecrag_edge_at` beside `piecrag_voice_at`. A flag stands beside the cell of which it tells, since C has no option.
ghost use Rattle.std.specs.Prelude.{◌≡◌, get_or, slice_get, None};
ghost use Rattle.words.specs.Place.{Holds};
ghost use Rattle.graph_rows.specs.Edge.{edges_in};
ghost use Rattle.order_table.specs.Prepares.{ids_in};
ghost use Rattle.voice_rows.specs.Rows.{voices_in};
ghost use Rattle.model.specs.Call as call;
ghost use Rattle.memory.specs.View.{Memory};
ghost use Rattle.memory.specs.Lent.{lent_state, lent_edges, lent_processing, lent_voice_table};
ghost use Rattle.state_words.specs.State.{state_in, some_flag};
ghost use Rattle.c_answer.specs.Exported.{Tells};
ghost use Rattle.piecrag_c_read.specs.Cells.{row_cell, source_cell};

use crate::cell::put_found;
use c_answer::answer::put_cell;
use node::record::NodeId;
use piecrag::{EdgeTable, OrderTable, VoiceTable};
use state_words::{StateWords, state_in};

pub const EDGE_RECORD_WORDS: usize = 3;

pub type EdgeRecord = [u32; EDGE_RECORD_WORDS];

// The voices in voice order: the first `count` rows of the table.
#[unsafe(no_mangle)]
pub extern "C" fn piecrag_voices(state: &StateWords, voices: &VoiceTable, count: &mut usize) -> u32
    ensures { (m : Memory) → Tells call.all (call.ask call.voices) (lent_voice_table (state_in state.now) voices.now m) result (λ vs. Holds (voices_in voices.now) count.new vs) }
{
    let s = state_in(state);
    *count = piecrag::voices(s, voices);
    0
}

// The edges in their order: the first `count` rows of the table.
#[unsafe(no_mangle)]
pub extern "C" fn piecrag_edges(state: &StateWords, edges: &EdgeTable, count: &mut usize) -> u32
    ensures { (m : Memory) → Tells call.wires (call.ask call.edges) (lent_edges (state_in state.now) edges.now m) result (λ es. Holds (edges_in edges.now) count.new es) }
{
    let s = state_in(state);
    *count = piecrag::edges(s, edges);
    0
}

// The processing order of the last good prepare: the first `count` words of the table are its node ids.
#[unsafe(no_mangle)]
pub extern "C" fn piecrag_processing_order(
    state: &StateWords,
    order: &OrderTable,
    count: &mut usize,
) -> u32
    ensures { (m : Memory) → Tells call.in_order (call.ask call.processing) (lent_processing (state_in state.now) order.now m) result (λ l. Holds (ids_in order.now) count.new l) }
{
    let s = state_in(state);
    *count = piecrag::processing_order(s, order);
    0
}

// The edge at a place in their order: `found` becomes 1, or 0 where there is none.
#[unsafe(no_mangle)]
pub extern "C" fn piecrag_edge_at(
    state: &StateWords,
    edges: &EdgeTable,
    place: usize,
    found: &mut u32,
    row: &mut EdgeRecord,
) -> u32
    ensures { (m : Memory) → Tells call.wires (call.ask call.edges) (lent_edges (state_in state.now) edges.now m) result (λ es. (found.new ≡ some_flag (slice_get es place)) × (edges_in row.new ≡ row_cell (slice_get es place) (edges_in row.old))) }
{
    let s = state_in(state);
    let r = piecrag::edge_at(s, edges, place);
    put_found(found, row, r);
    0
}

// What feeds a port of a node: `fed` becomes 1, or 0 where nothing does.
#[unsafe(no_mangle)]
pub extern "C" fn piecrag_source(
    state: &StateWords,
    edges: &EdgeTable,
    node: u32,
    port: u32,
    fed: &mut u32,
    from: &mut u32,
) -> u32
    ensures { (m : Memory) → Tells call.fed (call.ask (call.sources (record { 0 = node }))) (lent_edges (state_in state.now) edges.now m) result (λ l. (fed.new ≡ some_flag (get_or l port None)) × (from.new ≡ source_cell (get_or l port None) from.old)) }
{
    let s = state_in(state);
    let all = piecrag::sources(s, edges, NodeId(node));
    let source = all.get(port as usize).copied().flatten();
    put_cell(fed, from, source.map(|n| n.0));
    0
}

// The samples rendered so far.
#[unsafe(no_mangle)]
pub extern "C" fn piecrag_clock(state: &StateWords, clock: &mut u64) -> u32
    ensures { (m : Memory) → Tells call.time (call.ask call.clock) (lent_state (state_in state.now) m) result (λ t. clock.new ≡ t) }
{
    let s = state_in(state);
    *clock = piecrag::clock(s);
    0
}
