// A definition as text: a line for the output, and one for each node, edge and parameter. No impl Display: the types are of crate synthdef, and what is
// printed goes into a buffer of bytes.
use book_bytes::sorts::sorts_of;
use codec::output::{Output, end_line, hex_bytes, text};
use codec::word::{and_word, edge_words};
use node::name::Name;
use synthdef::def::{DefEdge, DefNode, NO_PORT, Param, SynthDef};

// A byte of a name: itself where it is visible and no `%`, else `%` and two hexadecimal digits.
fn show_byte(out: &mut Output, b: u8) {
    if b.is_ascii_graphic() && b != b'%' {
        text(out, &[b]);
        return;
    }
    text(out, b"%");
    hex_bytes(out, &[b]);
}

fn show_name(out: &mut Output, n: Name) {
    for b in n.text() {
        show_byte(out, *b);
    }
}

// A port that is given by name, or `-`.
fn show_port(out: &mut Output, label: &[u8], port: u8) {
    text(out, label);
    if port == NO_PORT {
        text(out, b" -");
        return;
    }
    and_word(out, port);
}

fn show_node(out: &mut Output, n: DefNode) {
    text(out, b"node ");
    show_name(out, n.kind);
    text(out, b" ports");
    and_word(out, n.ports);
    text(out, b" required");
    and_word(out, n.required);
    text(out, b" sorts");
    and_word(out, sorts_of(n.takes_values, n.takes_glides));
    show_port(out, b" in", n.in_port);
    show_port(out, b" level", n.level_port);
    show_port(out, b" amp", n.amp_port);
    end_line(out);
}

fn show_edge(out: &mut Output, e: DefEdge) {
    text(out, b"edge");
    edge_words(out, e.from, e.to, e.port);
    end_line(out);
}

fn show_param(out: &mut Output, p: Param) {
    text(out, b"param ");
    show_name(out, p.name);
    and_word(out, p.node);
    end_line(out);
}

pub(crate) fn show(out: &mut Output, d: SynthDef) {
    text(out, b"output");
    and_word(out, d.output);
    end_line(out);
    for n in d.nodes.as_slice() {
        show_node(out, *n);
    }
    for e in d.edges.as_slice() {
        show_edge(out, *e);
    }
    for p in d.params.as_slice() {
        show_param(out, *p);
    }
}
