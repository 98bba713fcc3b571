// The readings, which leave the store as it is.
// The sorts are numbers: docs/REPLAY.md numbers the entries, and a recorded script holds the numbers.
use crate::voices::voice_at;
use codec::field::{after, byte_at, bytes_at, word_at};
use codec::output::Output;
use piecrag::{
    EdgeTable, EventTable, NodeId, NodeTable, OrderTable, State, StealTable, VoiceId, VoiceTable,
    page,
};
use transcript::answer::{clock_line, level_line, page_lines, position_line, refused_line};
use transcript::graphs::{edges_line, order_line, sources_line};
use transcript::state::state_lines;
use transcript::stolen::steals_line;
use transcript::voices::{found_line, voices_line};

// A reading: its sort, and what it is of, a voice or, as a word, a place, a node or the length of a buffer. Both are read of every entry: an enum
// would name twelve readings, which are matched once.
#[derive(Clone, Copy)]
pub struct Question {
    sort: u8,
    voice: VoiceId,
    word: u32,
}

pub fn question_at(s: &[u8], at: usize) -> Question {
    let from = after(at, 1);
    Question {
        sort: byte_at(s, at),
        voice: voice_at(s, from),
        word: word_at(s, from),
    }
}

// What is read of one voice.
fn tell_voice(out: &mut Output, q: Question, state: State, nodes: &NodeTable, voices: &VoiceTable) {
    let id = q.voice;
    match q.sort {
        22 => level_line(out, piecrag::voice_level(state, nodes, voices, id)),
        23 => position_line(out, piecrag::fade_position(state, voices, id)),
        24 => found_line(out, piecrag::voice(state, voices, id)),
        _ => found_line(out, piecrag::voice_at(state, voices, q.word as usize)),
    }
}

// A page in a buffer of `n` bytes. An entry that asks for more than 4,096 is malformed, and not played.
fn lent_page(out: &mut Output, n: usize, state: State, edges: &EdgeTable, voices: &VoiceTable) {
    let mut room = io::buffer();
    let lent = &mut room[..n.min(4096)];
    match page(state, edges, voices, lent) {
        Ok(len) => page_lines(out, bytes_at(lent, 0, len)),
        Err(refusal) => refused_line(out, refusal),
    }
}

// What is read of one table, of none, or, for the page, of two.
fn tell_table(
    out: &mut Output,
    q: Question,
    state: State,
    edges: &EdgeTable,
    order: &OrderTable,
    voices: &VoiceTable,
    steals: &StealTable,
) {
    match q.sort {
        26 => voices_line(out, state, voices),
        27 => steals_line(out, piecrag::steals(state, steals)),
        28 => edges_line(out, state, edges),
        29 => order_line(out, state, order),
        30 => sources_line(out, piecrag::sources(state, edges, NodeId(q.word))),
        31 => clock_line(out, piecrag::clock(state)),
        _ => lent_page(out, q.word as usize, state, edges, voices),
    }
}

// What is read of one voice, of a table, or of the whole store.
pub fn tell(
    out: &mut Output,
    q: Question,
    state: State,
    nodes: &NodeTable,
    edges: &EdgeTable,
    order: &OrderTable,
    voices: &VoiceTable,
    events: &EventTable,
    steals: &StealTable,
) {
    match q.sort {
        22..=25 => tell_voice(out, q, state, nodes, voices),
        33 => state_lines(out, state, nodes, edges, order, voices, events, steals),
        _ => tell_table(out, q, state, edges, order, voices, steals),
    }
}
