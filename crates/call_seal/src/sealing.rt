ghost use Rattle.std.specs.Prelude.{◌≡◌, List, ℕ};
ghost use Rattle.memory.specs.View.{Memory};
ghost use Rattle.memory.specs.Lent.{lent_voices};
ghost use Rattle.call_console.specs.Queues.{wishes_of};
ghost use Rattle.sealed.specs.Board.{none_waits, seal};
ghost use Rattle.call_seal.specs.Board.{board, BoardCalled, BoardKept, seal_answer};

use crate::accept::fits_store;
use call_console::queues::{WishState, keyboard_count, waiting_count};
use graph_rows::edge_row::EdgeTable;
use graph_rows::node_row::NodeTable;
use memory::state::State;
use sealed::profile::{Profile, Seal};
use sealed::refusal::SealRefusal;
use voice_rows::row::VoiceTable;

// The seal that sealing left, and its answer: beside each other, as the state and the answer of a call of the store are (`CallResult`).
// Not that type, whose field `state` would hold no state; and not the seal in an `Ok`: a caller keeps what is left whatever the answer is.
#[derive(Clone, Copy)]
pub struct SealResult {
    pub seal: Seal,
    pub answer: Result<(), SealRefusal>,
}

// Whether no wish waits at any keyboard.
fn none_waits(w: WishState) -> bool
    ensures { (c : List ℕ) → result ≡ none_waits (wishes_of w c).waits }
{
    (0..keyboard_count(w)).all(|q| waiting_count(w, q) == 0)
}

// The builder seals the board by the profile `p`. A sealed board stays as it is sealed.
pub fn seal(
    x: Seal,
    s: State,
    nodes: &NodeTable,
    edges: &EdgeTable,
    voices: &VoiceTable,
    w: WishState,
    p: Profile,
) -> SealResult
    ensures is { (m : Memory) (c : List ℕ) → BoardCalled (seal p) (board (lent_voices s nodes.now edges.now voices.now m) w c x) (seal_answer result.answer) (board (lent_voices s nodes.now edges.now voices.now m) w c result.seal) }
    ensures same { (m : Memory) (c : List ℕ) → BoardKept (seal_answer result.answer) (board (lent_voices s nodes.now edges.now voices.now m) w c x) (board (lent_voices s nodes.now edges.now voices.now m) w c result.seal) }
{
    if x.is_some() {
        return SealResult {
            seal: x,
            answer: Err(SealRefusal::Closed),
        };
    }
    if fits_store(s, nodes, edges, voices, p) && none_waits(w) {
        return SealResult {
            seal: Some(p),
            answer: Ok(()),
        };
    }
    SealResult {
        seal: x,
        answer: Err(SealRefusal::NotAccepted),
    }
}
