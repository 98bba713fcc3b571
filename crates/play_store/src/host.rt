// The counters and the host's calls.
// The sorts are numbers: docs/REPLAY.md numbers the entries, and a recorded script holds the numbers.
use codec::field::{after, byte_at, long_at, word_at};
use codec::output::{Output, text};
use graph_rows::node_row::{owner_at, put_noise};
use graph_tables::lookup::node_count;
use node::record::{HOST, NodeId};
use piecrag::{
    CallResult, EdgeTable, NodeTable, Seal, State, board_add_node, board_connect, board_disconnect,
    board_remove_node, board_set_sink,
};
use script::host::{host_node_at, id_at, wire_at};
use script::name::name_at;
use transcript::answer::{Numbered, answer_line, given_line};

// The state that a call left; `line` writes its answer.
pub(crate) fn answered<A, F: FnOnce(&mut Output, A)>(
    out: &mut Output,
    r: CallResult<A>,
    line: F,
) -> State
    requires { F.IsAlwaysCallable line }
{
    let CallResult { state, answer } = r;
    line(out, answer);
    state
}

// The state that a call left; its answer is written.
pub fn told<R: Numbered>(out: &mut Output, r: CallResult<Result<(), R>>) -> State {
    answered(out, r, |o: &mut Output, a| answer_line(o, b"done\n", a))
}

// The state that a call left; the id that it gave is written.
fn given<R: Numbered>(out: &mut Output, r: CallResult<Result<NodeId, R>>) -> State {
    answered(out, r, |o: &mut Output, a| {
        given_line(o, b"node", a.map(|id| u64::from(id.0)));
    })
}

// The noise sequence of every node of the host. By the index: a row is so many words of the table, and no
// slice of rows is there. Not by `change_rows` of words: that crate is no dependency here, and `put_noise` knows the width of a row and the place of
// the sequence in it.
fn set_noise(nodes: &mut NodeTable, count: usize, noise: u32) {
    for i in 0..node_count(nodes, count) {
        if owner_at(nodes, i) == HOST {
            put_noise(nodes, i, noise);
        }
    }
}

// The clock, the voice ids given out, the noise sequence, and the next node id: that moves forwards alone, and no further than past the
// last id. No `clamp`: it asks that the least is not above the most, which nothing says of a state's next id.
fn set(out: &mut Output, s: &[u8], at: usize, state: State, nodes: &mut NodeTable) -> State {
    set_noise(nodes, state.nodes, word_at(s, after(at, 16)));
    text(out, b"set\n");
    State {
        clock: long_at(s, at),
        spawned: long_at(s, after(at, 8)),
        next: long_at(s, after(at, 20)).min(0x1_0000_0000).max(state.next),
        ..state
    }
}

// The counters, or a call on the host's nodes: one node, a node and a port, or an edge.
pub fn play_host(
    out: &mut Output,
    s: &[u8],
    at: usize,
    seal: Seal,
    state: State,
    nodes: &mut NodeTable,
    edges: &mut EdgeTable,
) -> State {
    let from = after(at, 1);
    let id = id_at(s, from);
    let port = word_at(s, after(from, 4));
    match byte_at(s, at) {
        2 => set(out, s, from, state, nodes),
        3 => given(
            out,
            board_add_node(seal, state, nodes, name_at(s, from), host_node_at(s, from)),
        ),
        4 => told(out, board_remove_node(seal, state, nodes, edges, id)),
        5 => told(
            out,
            board_connect(seal, state, nodes, edges, wire_at(s, from)),
        ),
        6 => told(out, board_disconnect(seal, state, nodes, edges, id, port)),
        _ => told(out, board_set_sink(seal, state, nodes, id)),
    }
}
