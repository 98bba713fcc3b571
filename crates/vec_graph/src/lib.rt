// Answers the vectors of the graph: scripts of calls on a graph in lent tables.
// Output, input and position stay three parameters: a struct of them would be taken apart at each reader of `codec` and `script`.
// Crate transcript has lines of an id, of an answer, of edges and of an order too, and takes crates that the vectors have no need of.
#![tactic(auto)]

use call_host::host::{add_node, connect, disconnect, remove_node, set_sink};
use call_make::make;
use codec::field::{NOWHERE, after, byte_at, calls, long_at, word_at};
use codec::line::{refused_line, word_line};
use codec::output::{Output, end_line, text};
use codec::word::{and_word, and_words, edge_words};
use graph::host::{HostNode, host_node};
use graph_rows::edge_row::{EDGE_WORDS, EdgeTable, edge_at, set_edge};
use graph_rows::node_row::{NODE_WORDS, NodeTable};
use graph_tables::lookup::{append_node, brief_of, node_count};
use graph_tables::ports::{feeding_edge, free_port, sources_of};
use graph_tables::removal::remove_voice;
use graph_tables::wiring::{edge_count, put_edge};
use memory::parts::with_graph;
use memory::state::{CallResult, State};
use node::record::{Node, NodeId, VoiceId};
use node::refusal::Refusal;
use order_table::{ORDER_WORDS, OrderTable};
use script::config::first_making;
use script::host::{host_node_at, id_at, wire_at};
use script::name::{name_at, name_end};

// The store of this program: its state, and the tables that it lends to the calls one by one.
#[derive(Drop)]
struct Store {
    state: State,
    nodes: NodeTable,
    edges: EdgeTable,
    order: OrderTable,
}

fn given_line(out: &mut Output, given: Result<NodeId, Refusal>) {
    match given {
        Ok(id) => word_line(out, b"node", id),
        Err(refusal) => refused_line(out, refusal),
    }
}

// Writes the answer of a call that gives nothing back, and keeps the state that it left.
fn served(out: &mut Output, g: &mut Store, r: CallResult<Result<(), Refusal>>) {
    g.state = r.state;
    match r.answer {
        Ok(()) => text(out, b"done\n"),
        Err(refusal) => refused_line(out, refusal),
    }
}

// A kind name, and what else the host says of the node.
fn add(out: &mut Output, s: &[u8], at: usize, g: &mut Store) -> usize {
    let r = add_node(g.state, &mut g.nodes, name_at(s, at), host_node_at(s, at));
    g.state = r.state;
    given_line(out, r.answer);
    after(name_end(s, at), 13)
}

fn remove(out: &mut Output, s: &[u8], at: usize, g: &mut Store) -> usize {
    let r = remove_node(g.state, &mut g.nodes, &mut g.edges, id_at(s, at));
    served(out, g, r);
    after(at, 4)
}

fn join(out: &mut Output, s: &[u8], at: usize, g: &mut Store) -> usize {
    let r = connect(g.state, &g.nodes, &mut g.edges, wire_at(s, at));
    served(out, g, r);
    after(at, 12)
}

fn part(out: &mut Output, s: &[u8], at: usize, g: &mut Store) -> usize {
    let port = word_at(s, after(at, 4));
    let r = disconnect(g.state, &g.nodes, &mut g.edges, id_at(s, at), port);
    served(out, g, r);
    after(at, 8)
}

fn hear(out: &mut Output, s: &[u8], at: usize, g: &mut Store) -> usize {
    let r = set_sink(g.state, &g.nodes, id_at(s, at));
    served(out, g, r);
    after(at, 4)
}

// How many ports a node has. Of one that is not live it is 0, and no `None`: it is asked of and answered as one without ports.
fn ports_of(g: &Store, node: NodeId) -> u32 {
    brief_of(&g.nodes, g.state.nodes, node).map_or(0, |seen| seen.ports)
}

fn ask_free_port(out: &mut Output, s: &[u8], at: usize, g: &Store) -> usize {
    let node = id_at(s, at);
    word_line(
        out,
        b"port",
        free_port(&g.edges, g.state.edges, node, ports_of(g, node)),
    );
    after(at, 4)
}

// The port of the first edge from a node to another, if there is one.
fn ask_fed_port(out: &mut Output, s: &[u8], at: usize, g: &Store) -> usize {
    let from = u64::from(word_at(s, at));
    let fed = feeding_edge(&g.edges, g.state.edges, from, id_at(s, after(at, 4)));
    word_line(out, b"port", fed.map(|e| e.port));
    after(at, 8)
}

// The sources of the ports that a node has.
fn ask_sources(out: &mut Output, s: &[u8], at: usize, g: &Store) -> usize {
    let node = id_at(s, at);
    let ports = ports_of(g, node) as usize;
    let sources = sources_of(&g.edges, g.state.edges, node);
    text(out, b"sources");
    and_words(out, &sources[..ports.min(64)]);
    end_line(out);
    after(at, 4)
}

// Nodes and edges by an index: a row is so many words of a lent table, and no slice of rows is there.
fn node_words(out: &mut Output, g: &Store) {
    for i in 0..node_count(&g.nodes, g.state.nodes) {
        and_word(out, graph_rows::node_row::id_at(&g.nodes, i));
    }
}

fn wiring_words(out: &mut Output, g: &Store) {
    for i in 0..edge_count(&g.edges, g.state.edges) {
        let e = edge_at(&g.edges, i);
        edge_words(out, e.from, e.to, e.port);
    }
}

fn order_line(out: &mut Output, g: &Store) {
    text(out, b"order");
    for id in g.order.iter().take(g.state.order) {
        and_word(out, NodeId(*id));
    }
    end_line(out);
}

// The whole graph: its sink, whether it is prepared, its nodes, its edges and its order.
fn show(out: &mut Output, g: &Store) {
    word_line(out, b"sink", g.state.sink);
    text(
        out,
        if g.state.prepared {
            b"prepared yes\nnodes"
        } else {
            b"prepared no\nnodes"
        },
    );
    node_words(out, g);
    text(out, b"\nedges");
    wiring_words(out, g);
    end_line(out);
    order_line(out, g);
}

fn prepare(out: &mut Output, g: &mut Store) {
    let r = call_host::preparing::prepare(g.state, &g.nodes, &g.edges, &mut g.order);
    g.state = r.state;
    match r.answer {
        Ok(()) => order_line(out, g),
        Err(refusal) => refused_line(out, refusal),
    }
}

fn owned_node(id: NodeId, voice: u64, ports: u32) -> Node {
    let plain = HostNode {
        ports,
        required: 0,
        takes_values: false,
        takes_glides: false,
    };
    Node {
        owner: VoiceId(voice),
        ..host_node(id, b"Tone", plain)
    }
}

// Adds a node of a voice, with so many ports, under the next id.
// The tests of `add_node` once more: no call of the store adds a node of a voice alone.
fn give_owned(g: &mut Store, voice: u64, ports: u32) -> Result<NodeId, Refusal> {
    if node_count(&g.nodes, g.state.nodes) >= 512 {
        return Err(Refusal::TableFull);
    }
    let next = u32::try_from(g.state.next).map_err(|_| Refusal::IdsUsedUp)?;
    let id = NodeId(next);
    let n = append_node(&mut g.nodes, g.state.nodes, owned_node(id, voice, ports));
    let s = g.state;
    g.state = with_graph(s, n, s.edges, s.sink, u64::from(next) + 1);
    Ok(id)
}

fn add_owned(out: &mut Output, s: &[u8], at: usize, g: &mut Store) -> usize {
    let given = give_owned(g, long_at(s, at), word_at(s, after(at, 8)));
    given_line(out, given);
    after(at, 12)
}

// So many edges, after a step that no call of the store makes.
fn wired(out: &mut Output, g: &mut Store, edges: usize) {
    let s = g.state;
    g.state = with_graph(s, s.nodes, edges, s.sink, s.next);
    text(out, b"done\n");
}

// An edge, with no look at the nodes.
fn put(out: &mut Output, s: &[u8], at: usize, g: &mut Store) -> usize {
    let n = put_edge(&mut g.edges, g.state.edges, wire_at(s, at));
    wired(out, g, n);
    after(at, 12)
}

// An edge behind the others, whatever else feeds its port. By `set_edge` at the count: `append_row` is of crate words, which is no dependency here,
// and takes the words of a row.
fn append(out: &mut Output, s: &[u8], at: usize, g: &mut Store) -> usize {
    let n = edge_count(&g.edges, g.state.edges);
    set_edge(&mut g.edges, n, wire_at(s, at));
    wired(out, g, after(n, 1));
    after(at, 12)
}

fn clear_voice(out: &mut Output, s: &[u8], at: usize, g: &mut Store) -> usize {
    text(out, b"done\n");
    let voice = VoiceId(long_at(s, at));
    let left = remove_voice(
        &mut g.nodes,
        g.state.nodes,
        &mut g.edges,
        g.state.edges,
        g.state.sink,
        voice,
    );
    g.state = with_graph(g.state, left.nodes, left.edges, left.sink, g.state.next);
    after(at, 8)
}

// One call, by its sort, which docs/VECTORS.md numbers.
// The byte is matched itself: an enum of the sorts would be made by the same match, and matched once more.
// NOWHERE and no Option for a sort that there is not: one test of an end finds it and an input that is too short.
fn play(out: &mut Output, s: &[u8], at: usize, g: &mut Store) -> usize {
    let from = after(at, 1);
    match byte_at(s, at) {
        1 => add(out, s, from, g),
        2 => remove(out, s, from, g),
        3 => join(out, s, from, g),
        4 => part(out, s, from, g),
        5 => hear(out, s, from, g),
        6 => {
            prepare(out, g);
            from
        }
        7 => ask_free_port(out, s, from, g),
        8 => ask_fed_port(out, s, from, g),
        9 => ask_sources(out, s, from, g),
        10 => {
            show(out, g);
            from
        }
        11 => add_owned(out, s, from, g),
        12 => put(out, s, from, g),
        13 => clear_voice(out, s, from, g),
        14 => append(out, s, from, g),
        _ => NOWHERE,
    }
}

// How many calls, and the calls, on a new graph in tables of its own. Of a new store the vectors use the graph alone.
// NOWHERE and no Option where a call ends past the input: whoever calls asks of each end whether it is past the input.
pub fn script(out: &mut Output, s: &[u8], at: usize) -> usize {
    let mut g = Store {
        state: make(first_making()).state,
        nodes: [0; NODE_WORDS],
        edges: [0; EDGE_WORDS],
        order: [0; ORDER_WORDS],
    };
    calls(s, at, |from| play(out, s, from, &mut g)).unwrap_or(NOWHERE)
}
