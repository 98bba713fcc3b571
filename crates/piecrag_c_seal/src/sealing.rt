// Sealing a board.
ghost use Rattle.std.specs.Prelude.{List, ℕ};
ghost use Rattle.memory.specs.View.{Memory};
ghost use Rattle.memory.specs.Lent.{lent_voices};
ghost use Rattle.sealed.specs.Board as sealed;
ghost use Rattle.call_seal.specs.Board.{board};
ghost use Rattle.state_words.specs.State.{state_in};
ghost use Rattle.wish_state_words.specs.Waiting.{waiting_in};
ghost use Rattle.seal_words.specs.Seal.{seal_in};
ghost use Rattle.piecrag_c_seal.specs.Board.{BoardExported, SealSettled};
ghost use Rattle.piecrag_c_seal.specs.Stated.{profile_of};

use c_answer::answer::result_code;
use node::record::NodeId;
use piecrag::{EdgeTable, NodeTable, Profile, VoiceTable};
use seal_words::{SealWords, put_seal, seal_in};
use sealed::profile::Seal;
use state_words::{StateWords, state_in};
use wish_state_words::{WaitingWords, waiting_in};

// The seal x is written to the words, unless they are kept. Why not by `settle` of c_answer, and why `kept` is a value, the lines at it say.
fn settle_seal(w: &mut SealWords, x: Seal, kept: bool)
    ensures { SealSettled w.old x kept w.new }
{
    if !kept {
        put_seal(w, x);
    }
}

// The board is sealed by what its builder states: the bus and its ports, the host nodes and edges, and the nodes and edges of the largest
// definition.
#[unsafe(no_mangle)]
pub extern "C" fn piecrag_seal(
    seal: &mut SealWords,
    state: &StateWords,
    nodes: &NodeTable,
    edges: &EdgeTable,
    voices: &VoiceTable,
    waiting: &WaitingWords,
    bus: u32,
    ports: u64,
    host_nodes: u64,
    host_edges: u64,
    def_nodes: u64,
    def_edges: u64,
) -> u32
    ensures { (m : Memory) (c : List ℕ) → BoardExported (sealed.seal (profile_of bus ports host_nodes host_edges def_nodes def_edges)) (board (lent_voices (state_in state.now) nodes.now edges.now voices.now m) (waiting_in waiting.now) c (seal_in seal.old)) seal.old result (board (lent_voices (state_in state.now) nodes.now edges.now voices.now m) (waiting_in waiting.now) c (seal_in seal.new)) seal.new }
{
    let x = seal_in(seal);
    let s = state_in(state);
    let w = waiting_in(waiting);
    let p = Profile {
        bus: NodeId(bus),
        ports,
        host_nodes,
        host_edges,
        def_nodes,
        def_edges,
    };
    let r = piecrag::seal(x, s, nodes, edges, voices, w, p);
    settle_seal(seal, r.seal, r.answer.is_err());
    result_code(r.answer)
}
