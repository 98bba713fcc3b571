// Reports, prepares and renders.
// The sorts are numbers: docs/REPLAY.md numbers the entries, and a recorded script holds the numbers.
use crate::host::told;
use codec::field::{after, byte_at, bytes_at, fields_at, float, word_at};
use codec::output::Output;
use piecrag::{
    EdgeTable, EventTable, NodeTable, OrderTable, Refusal, State, VoiceTable, prepare, render,
    report,
};
use script::host::id_at;
use transcript::answer::{list_line, rendered_line};

// The samples of the report at `at`: 512 that follow each other, or the one of entry 19 again and again. All 512 and no count: `reported` takes those
// that the entry counts.
fn samples_at(s: &[u8], at: usize) -> [f32; 512] {
    let from = after(at, 11);
    if byte_at(s, at) == 19 {
        return [float(word_at(s, from)); 512];
    }
    let mut out = [0.0; 512];
    fields_at(s, from, &mut out);
    out
}

// A node, its channels, its done flag and how many samples, which follow. An entry that counts more than 512 is malformed, and
// not played.
pub fn reported(
    s: &[u8],
    at: usize,
    state: State,
    nodes: &mut NodeTable,
    voices: &VoiceTable,
) -> Result<(), Refusal> {
    let node = id_at(s, after(at, 1));
    let channels = usize::from(byte_at(s, after(at, 5)));
    let done = byte_at(s, after(at, 6)) != 0;
    let n = (word_at(s, after(at, 7)) as usize).min(512);
    let samples = samples_at(s, at);
    report(state, nodes, voices, node, channels, &samples[..n], done)
}

pub fn play_prepare(
    out: &mut Output,
    state: State,
    nodes: &NodeTable,
    edges: &EdgeTable,
    order: &mut OrderTable,
) -> State {
    told(out, prepare(state, nodes, edges, order))
}

// How long a list the entry lends, and what each of its entries holds before: 256 and 255 where it does not describe it. A flag beside the two
// and no Option of them, since a list is lent in both cases.
#[derive(Clone, Copy)]
pub struct Lent {
    described: bool,
    count: usize,
    old: u8,
}

pub fn lent_at(s: &[u8], at: usize) -> Lent {
    if byte_at(s, at) == 21 {
        return Lent {
            described: false,
            count: 256,
            old: 255,
        };
    }
    Lent {
        described: true,
        count: word_at(s, after(at, 1)) as usize,
        old: byte_at(s, after(at, 5)),
    }
}

// The line of a render shows the entries that it has written; all of a list that the script describes stand on a line of their own. Of the
// entries that a list is said to have 4,096 count.
pub fn play_render(
    out: &mut Output,
    lent: Lent,
    state: State,
    nodes: &mut NodeTable,
    edges: &mut EdgeTable,
    order: &mut OrderTable,
    voices: &mut VoiceTable,
    events: &mut EventTable,
) -> State {
    let n = lent.count.min(4096);
    let mut room = [lent.old; 4096];
    let list = &mut room[..n];
    let r = render(state, nodes, edges, order, voices, events, list);
    rendered_line(out, r.answer, bytes_at(list, 0, r.taken));
    if lent.described {
        list_line(out, list);
    }
    r.state
}
