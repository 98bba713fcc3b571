// Voices.
// Rows are read by their index: a row is so many words of a lent table, and no slice of rows is there.
use call_read::look::{voice_at, voice_level};
use codec::output::{Output, end_line, text};
use codec::word::and_word;
use graph_rows::edge_row::EdgeTable;
use graph_rows::node_row::NodeTable;
use graph_tables::ports::feeding_edge;
use memory::state::State;
use voice::voices::{Voice, VoiceState};
use voice_rows::feeding::end_at;
use voice_rows::row::{VoiceTable, id_at, state_at};

fn state_words(out: &mut Output, state: VoiceState) {
    match state {
        VoiceState::Tracked => text(out, b" held"),
        VoiceState::Loose => text(out, b" loose"),
        VoiceState::Fading(fade) => {
            text(out, b" fading");
            and_word(out, fade.node);
            and_word(out, fade.start);
            and_word(out, fade.position);
            and_word(out, fade.number);
        }
    }
}

// The record of a voice.
fn record_words(out: &mut Output, v: Voice) {
    text(out, b"voice");
    and_word(out, v.id);
    and_word(out, v.birth);
    and_word(out, v.bus);
    and_word(out, v.first);
    and_word(out, v.count);
    and_word(out, v.output);
    and_word(out, u64::from(v.panned));
    and_word(out, v.port);
    and_word(out, v.sequence);
    and_word(out, v.rank);
    state_words(out, v.state);
}

pub fn found_line(out: &mut Output, found: Option<Voice>) {
    match found {
        Some(v) => {
            record_words(out, v);
            end_line(out);
        }
        None => text(out, b"-\n"),
    }
}

// The voice `v`, which stands in row `i`: its record, the port of its bus that it feeds now, its level.
fn voice_line(
    out: &mut Output,
    s: State,
    nodes: &NodeTable,
    edges: &EdgeTable,
    voices: &VoiceTable,
    i: usize,
    v: Voice,
) {
    let fed = feeding_edge(edges, s.edges, end_at(voices, i), v.bus);
    record_words(out, v);
    and_word(out, fed.map(|e| e.port));
    and_word(out, voice_level(s, nodes, voices, v.id));
    end_line(out);
}

pub fn voice_lines(
    out: &mut Output,
    s: State,
    nodes: &NodeTable,
    edges: &EdgeTable,
    voices: &VoiceTable,
) {
    for i in 0..call_read::counts::voices(s, voices) {
        if let Some(v) = voice_at(s, voices, i) {
            voice_line(out, s, nodes, edges, voices, i, v);
        }
    }
}

// The ids of the voices. A function over this line and the next would take a test as a closure, and be no shorter than the two.
pub fn voices_line(out: &mut Output, s: State, voices: &VoiceTable) {
    text(out, b"voices");
    for i in 0..call_read::counts::voices(s, voices) {
        and_word(out, id_at(voices, i));
    }
    end_line(out);
}

pub fn tracked_line(out: &mut Output, s: State, voices: &VoiceTable) {
    text(out, b"tracked");
    for i in 0..call_read::counts::voices(s, voices) {
        if let VoiceState::Tracked = state_at(voices, i) {
            and_word(out, id_at(voices, i));
        }
    }
    end_line(out);
}
