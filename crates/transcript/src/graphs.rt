// Nodes, edges, the processing order and the sink.
// Rows are read by their index: a row is so many words of a lent table, and no slice of rows is there.
use crate::line_words::name_word;
use call_read::counts::edge_at;
use codec::line::{glide_words, word_line};
use codec::output::{Output, end_line, text};
use codec::word::{and_word, edge_words};
use graph_rows::edge_row::EdgeTable;
use graph_rows::node_row::{NodeTable, node_at};
use graph_tables::lookup::node_count;
use memory::state::State;
use node::order::LastOrder;
use node::record::{Node, NodeId};
use order_table::OrderTable;

pub fn edges_line(out: &mut Output, s: State, edges: &EdgeTable) {
    text(out, b"edges");
    for i in 0..call_read::counts::edges(s, edges) {
        if let Some(e) = edge_at(s, edges, i) {
            edge_words(out, e.from, e.to, e.port);
        }
    }
    end_line(out);
}

pub fn order_line(out: &mut Output, s: State, order: &OrderTable) {
    let count = call_read::counts::processing_order(s, order);
    text(out, b"order");
    for &id in order.iter().take(count) {
        and_word(out, id);
    }
    end_line(out);
}

// Each port that is fed, and by which node.
pub fn sources_line(out: &mut Output, sources: [Option<NodeId>; 64]) {
    text(out, b"sources");
    for (port, &source) in sources.iter().enumerate() {
        if let Some(id) = source {
            and_word(out, port);
            and_word(out, id);
        }
    }
    end_line(out);
}

// One call, with a function of its own, so that this crate alone has a transcript's words.
pub fn sink_line(out: &mut Output, sink: Option<NodeId>) {
    word_line(out, b"sink", sink);
}

fn order_words(out: &mut Output, last: LastOrder) {
    match last {
        LastOrder::Nothing => text(out, b" -"),
        LastOrder::Value(x) => {
            text(out, b" value");
            and_word(out, x);
        }
        LastOrder::Glide(g) => {
            text(out, b" glide");
            glide_words(out, g);
        }
    }
}

fn node_line(out: &mut Output, node: Node) {
    text(out, b"node");
    and_word(out, node.id);
    and_word(out, node.owner);
    name_word(out, node.kind);
    and_word(out, node.ports);
    and_word(out, node.required);
    // 1 for values, plus 2 for glides: docs/REPLAY.md has one number for both. Not by `sorts_of` of book_bytes: what is compared shares nothing with it.
    and_word(
        out,
        u64::from(node.takes_values) + 2 * u64::from(node.takes_glides),
    );
    and_word(out, u64::from(node.done));
    and_word(out, node.level);
    order_words(out, node.last);
    and_word(out, node.noise);
    end_line(out);
}

pub fn node_lines(out: &mut Output, s: State, nodes: &NodeTable) {
    for i in 0..node_count(nodes, s.nodes) {
        node_line(out, node_at(nodes, i));
    }
}
