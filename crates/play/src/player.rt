// An entry of a script on its store. Each lent table is a parameter of its own, a rule of the project: a signature shows what a function may touch.
// An entry is the script and its position, two parameters everywhere, as codec::field reads and its definitions say.
// The sorts are numbers: docs/REPLAY.md numbers the entries, and a recorded script holds the numbers.
use codec::field::byte_at;
use codec::output::Output;
use piecrag::{
    EdgeTable, EventTable, NodeTable, OrderTable, StealTable, SynthDef, VoiceTable, WishTable, make,
};
use play_board::keyboards::{Board, new_board, no_keyboards, play_console, play_turn};
use play_board::seals::play_seal;
use play_board::spawns::{play_spawn, spawn_at};
use play_store::blocks::{lent_at, play_prepare, play_render};
use play_store::host::play_host;
use play_store::tell::{question_at, tell};
use play_store::voices::{play_event, play_voice};
use script::config::first_making;

// Entries before the first making are played on a store of 48,000 Hz, block 64, no budget, without keyboards.
pub(crate) fn first_board() -> Board {
    new_board(make(first_making()).state, no_keyboards())
}

// The entry at `at`, which is whole and keeps no definition: the board after it. A spawn and a wish are of the definition `def`.
pub(crate) fn play_entry(
    out: &mut Output,
    s: &[u8],
    at: usize,
    def: SynthDef,
    board: Board,
    nodes: &mut NodeTable,
    edges: &mut EdgeTable,
    order: &mut OrderTable,
    voices: &mut VoiceTable,
    events: &mut EventTable,
    steals: &mut StealTable,
    wishes: &mut WishTable,
) -> Board {
    let Board { state, seal, .. } = board;
    let next = match byte_at(s, at) {
        2..=7 => play_host(out, s, at, seal, state, nodes, edges),
        9..=12 => {
            let w = spawn_at(s, at, def);
            play_spawn(out, w, seal, state, nodes, edges, voices, steals)
        }
        13..=16 | 18 | 19 => play_voice(out, s, at, state, nodes, edges, voices),
        17 => play_event(out, s, at, state, events),
        20 => play_prepare(out, state, nodes, edges, order),
        21 | 35 => {
            let lent = lent_at(s, at);
            play_render(out, lent, state, nodes, edges, order, voices, events)
        }
        22..=33 => {
            let q = question_at(s, at);
            tell(out, q, state, nodes, edges, order, voices, events, steals);
            state
        }
        49 => return play_turn(out, board, nodes, edges, voices, steals, wishes),
        52 => return play_seal(out, s, at, board, nodes, edges, voices),
        _ => return play_console(out, s, at, def, board, wishes),
    };
    Board {
        state: next,
        ..board
    }
}
