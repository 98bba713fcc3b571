// The four spawns.
// The sorts are numbers: docs/REPLAY.md numbers the entries, and a recorded script holds the numbers.
use codec::field::{after, byte_at, float, word_at};
use codec::output::Output;
use piecrag::{
    EdgeTable, NodeTable, Seal, State, StealTable, SynthDef, VoiceTable, Wish, board_spawn,
};
use script::host::id_at;
use transcript::answer::given_line;

// A slot, whose definition is `def`, a bus, a pan and a rank. The entries 11 and 12 have no pan, which is 0; those of 9 and 11 are managed.
pub fn spawn_at(s: &[u8], at: usize, def: SynthDef) -> Wish {
    let sort = byte_at(s, at);
    let (pan, rank) = match sort {
        11.. => (0.0, word_at(s, after(at, 6))),
        _ => (float(word_at(s, after(at, 6))), word_at(s, after(at, 10))),
    };
    Wish {
        managed: matches!(sort, 9 | 11),
        def,
        bus: id_at(s, after(at, 2)),
        pan,
        rank,
    }
}

// It writes as `given` of play_store does, a crate that this one needs for nothing else.
pub fn play_spawn(
    out: &mut Output,
    w: Wish,
    seal: Seal,
    state: State,
    nodes: &mut NodeTable,
    edges: &mut EdgeTable,
    voices: &mut VoiceTable,
    steals: &mut StealTable,
) -> State {
    let r = board_spawn(seal, state, nodes, edges, voices, steals, w);
    given_line(out, b"voice", r.answer.map(|id| id.0));
    r.state
}
