// Frees, clearing, values, glides, reports and events.
// The sorts are numbers: docs/REPLAY.md numbers the entries, and a recorded script holds the numbers.
use crate::blocks::reported;
use crate::host::{answered, told};
use codec::field::{after, byte_at, float, long_at, word_at};
use codec::output::Output;
use piecrag::{
    EdgeTable, EventTable, NodeTable, Outcome, State, VoiceId, VoiceTable, free_done_synths,
    free_voice, schedule, set_voice_param, set_voice_param_glide,
};
use script::glide::{action_of, glide_at};
use script::name::{name_at, name_end};
use transcript::answer::{answer_line, outcome_line, removed_line};

pub fn voice_at(s: &[u8], at: usize) -> VoiceId {
    VoiceId(long_at(s, at))
}

// A value, and the next a glide. Two functions: one over both would take the reading and the call as closures, and lend the tables to the second.
fn value(s: &[u8], at: usize, state: State, nodes: &mut NodeTable, voices: &VoiceTable) -> Outcome {
    let name = after(at, 8);
    let x = float(word_at(s, name_end(s, name)));
    set_voice_param(state, nodes, voices, voice_at(s, at), name_at(s, name), x)
}

fn glide(s: &[u8], at: usize, state: State, nodes: &mut NodeTable, voices: &VoiceTable) -> Outcome {
    let name = after(at, 8);
    let g = glide_at(s, name_end(s, name));
    set_voice_param_glide(state, nodes, voices, voice_at(s, at), name_at(s, name), g)
}

// A value, a glide or a report. The state stays as it is.
fn play_order(
    out: &mut Output,
    s: &[u8],
    at: usize,
    state: State,
    nodes: &mut NodeTable,
    voices: &VoiceTable,
) {
    let from = after(at, 1);
    match byte_at(s, at) {
        15 => outcome_line(out, value(s, from, state, nodes, voices)),
        16 => outcome_line(out, glide(s, from, state, nodes, voices)),
        _ => answer_line(out, b"done\n", reported(s, at, state, nodes, voices)),
    }
}

// A free, a clearing, a value, a glide or a report.
pub fn play_voice(
    out: &mut Output,
    s: &[u8],
    at: usize,
    state: State,
    nodes: &mut NodeTable,
    edges: &mut EdgeTable,
    voices: &mut VoiceTable,
) -> State {
    match byte_at(s, at) {
        13 => {
            let r = free_voice(state, nodes, edges, voices, voice_at(s, after(at, 1)));
            answered(out, r, outcome_line)
        }
        14 => {
            let r = free_done_synths(state, nodes, edges, voices);
            answered(out, r, removed_line)
        }
        _ => {
            play_order(out, s, at, state, nodes, voices);
            state
        }
    }
}

// A time, a voice, the sort of an action, a name and a glide.
pub fn play_event(
    out: &mut Output,
    s: &[u8],
    at: usize,
    state: State,
    events: &mut EventTable,
) -> State {
    let time = long_at(s, after(at, 1));
    let voice = voice_at(s, after(at, 9));
    let sort = byte_at(s, after(at, 17));
    let name = after(at, 18);
    let action = action_of(sort, glide_at(s, name_end(s, name)));
    told(
        out,
        schedule(state, events, time, voice, name_at(s, name), action),
    )
}
