// Sealing a board.
use crate::keyboards::Board;
use codec::field::{after, long_at};
use codec::output::Output;
use piecrag::{EdgeTable, NodeTable, Profile, VoiceTable, seal};
use script::host::id_at;
use transcript::answer::answer_line;

// A bus, P, H, G, D and E.
fn profile_at(s: &[u8], at: usize) -> Profile {
    Profile {
        bus: id_at(s, at),
        ports: long_at(s, after(at, 4)),
        host_nodes: long_at(s, after(at, 12)),
        host_edges: long_at(s, after(at, 20)),
        def_nodes: long_at(s, after(at, 28)),
        def_edges: long_at(s, after(at, 36)),
    }
}

pub fn play_seal(
    out: &mut Output,
    s: &[u8],
    at: usize,
    board: Board,
    nodes: &NodeTable,
    edges: &EdgeTable,
    voices: &VoiceTable,
) -> Board {
    let stated = profile_at(s, after(at, 1));
    let r = seal(
        board.seal,
        board.state,
        nodes,
        edges,
        voices,
        board.wishes,
        stated,
    );
    answer_line(out, b"sealed\n", r.answer);
    Board {
        seal: r.seal,
        ..board
    }
}
