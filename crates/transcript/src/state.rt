// The whole state. Each lent table is a parameter of its own, a rule of the project: a signature shows what a function may touch.
use crate::answer::clock_line;
use crate::graphs::{edges_line, node_lines, order_line, sink_line};
use crate::queue::event_lines;
use crate::stolen::steal_lines;
use crate::voices::{tracked_line, voice_lines};
use call_read::records::{clock, steals};
use codec::line::word_line;
use codec::output::{Output, end_line, text};
use codec::word::and_word;
use event_table::row::EventTable;
use graph_rows::edge_row::EdgeTable;
use graph_rows::node_row::NodeTable;
use memory::state::State;
use order_table::OrderTable;
use steal_log::StealTable;
use voice_rows::row::VoiceTable;

fn graph_lines(
    out: &mut Output,
    s: State,
    nodes: &NodeTable,
    edges: &EdgeTable,
    order: &OrderTable,
) {
    word_line(out, b"prepared", u64::from(s.prepared));
    sink_line(out, s.sink);
    edges_line(out, s, edges);
    order_line(out, s, order);
    node_lines(out, s, nodes);
}

// The next node id, 2^32 where none is left, and how many voice ids were given out.
fn next_line(out: &mut Output, s: State) {
    text(out, b"next");
    and_word(out, s.next);
    and_word(out, s.spawned);
    end_line(out);
}

pub fn state_lines(
    out: &mut Output,
    s: State,
    nodes: &NodeTable,
    edges: &EdgeTable,
    order: &OrderTable,
    voices: &VoiceTable,
    events: &EventTable,
    lent_steals: &StealTable,
) {
    text(out, b"state\n");
    clock_line(out, clock(s));
    graph_lines(out, s, nodes, edges, order);
    voice_lines(out, s, nodes, edges, voices);
    tracked_line(out, s, voices);
    event_lines(out, s, events);
    steal_lines(out, steals(s, lent_steals));
    next_line(out, s);
    text(out, b"end\n");
}
