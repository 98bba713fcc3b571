// How many rows of a lent table count: the host has the rows, in the words that it lends, and there is no slice of rows. The answer is their number,
// and never more than the table has room for.
// `voices` and `edges` are calls of docs/CALLS.md: each takes the state, so that a host need not know which count is meant, and says what the
// model answers.
ghost use Rattle.std.specs.Prelude.{◌≡◌, take, slice_get};
ghost use Rattle.words.specs.Place.{Holds};
ghost use Rattle.graph_rows.specs.Edge.{edges_in};
ghost use Rattle.order_table.specs.Prepares.{ids_in};
ghost use Rattle.voice_rows.specs.Rows.{voices_in};
ghost use Rattle.model.specs.Call as call;
ghost use Rattle.memory.specs.View.{Memory};
ghost use Rattle.memory.specs.Lent.{lent_edges, lent_processing, lent_voice_table};
ghost use Rattle.memory.specs.Called.{Called};

use graph_rows::edge_row::{self, EdgeTable};
use graph_tables::wiring::edge_count;
use memory::state::State;
use node::record::Edge;
use order_table::OrderTable;
use voice_rows::row::VoiceTable;
use voice_rows::table::voice_count;

// The voices in order of admission: that many rows of the table are they.
pub fn voices(s: State, voices: &VoiceTable) -> usize
    ensures is { (m : Memory) → Called (call.ask call.voices) (lent_voice_table s voices.now m) (call.all (take result (voices_in voices.now))) (lent_voice_table s voices.now m) }
    ensures count { Holds (voices_in voices.now) result (take s.voices (voices_in voices.now)) }
{
    voice_count(voices, s.voices)
}

// The edges, in their order: that many rows of the table are they.
pub fn edges(s: State, edges: &EdgeTable) -> usize
    ensures is { (m : Memory) → Called (call.ask call.edges) (lent_edges s edges.now m) (call.wires (take result (edges_in edges.now))) (lent_edges s edges.now m) }
    ensures count { Holds (edges_in edges.now) result (take s.edges (edges_in edges.now)) }
{
    edge_count(edges, s.edges)
}

// The edge at a place in their order, or none. It is a call of docs/CALLS.md as `voice_at` is, and its one line reads another table.
pub fn edge_at(s: State, edges: &EdgeTable, i: usize) -> Option<Edge>
    ensures { result ≡ slice_get (take s.edges (edges_in edges.now)) i }
{
    (i < edge_count(edges, s.edges)).then(|| edge_row::edge_at(edges, i))
}

// The processing order that the last good prepare gave: that many words of the table are its node ids.
pub fn processing_order(s: State, order: &OrderTable) -> usize
    ensures is { (m : Memory) → Called (call.ask call.processing) (lent_processing s order.now m) (call.in_order (take result (ids_in order.now))) (lent_processing s order.now m) }
    ensures count { Holds (ids_in order.now) result (take s.order (ids_in order.now)) }
{
    s.order.min(order.len())
}
