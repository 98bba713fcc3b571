// The spawn: managed or not, with the definition of a book. A seal leaves open the managed one on its bus within its D and E.
ghost use Rattle.std.specs.Prelude.{List, ℕ};
ghost use Rattle.words.specs.Fields.{is_set};
ghost use Rattle.def_book.specs.Read.{read_book};
ghost use Rattle.memory.specs.View.{Memory};
ghost use Rattle.memory.specs.Lent.{lent_spawn};
ghost use Rattle.call_console.specs.declared.queues.WishState.{WishState};
ghost use Rattle.call_seal.specs.Board.{board};
ghost use Rattle.state_words.specs.State.{state_in};
ghost use Rattle.seal_words.specs.Seal.{seal_in};
ghost use Rattle.piecrag_c_seal.specs.Book.{SpawnFromBook};

use crate::from_book::{refuses_book, wish_in};
use book_bytes::read::read_book;
use c_answer::answer::settle_result;
use def_book::answer::read_number;
use node::record::NodeId;
use piecrag::{EdgeTable, NodeTable, StealTable, VoiceTable};
use seal_words::{SealWords, seal_in};
use state_words::{StateWords, state_in};

// A spawn, unmanaged if `managed` is 0; `voice` becomes the id of the new voice.
#[unsafe(no_mangle)]
pub extern "C" fn piecrag_spawn(
    seal: &SealWords,
    state: &mut StateWords,
    nodes: &mut NodeTable,
    edges: &mut EdgeTable,
    voices: &mut VoiceTable,
    steals: &mut StealTable,
    managed: u32,
    book: &[u8],
    bus: u32,
    pan: f32,
    rank: u32,
    voice: &mut u64,
) -> u32
    ensures { (m : Memory) (p : WishState) (c : List ℕ) → SpawnFromBook (read_book book.now) (is_set managed) (record { 0 = bus }) pan rank (board (lent_spawn (state_in state.old) nodes.old edges.old voices.old steals.old m) p c (seal_in seal.now)) state.old voice.old result (board (lent_spawn (state_in state.new) nodes.new edges.new voices.new steals.new m) p c (seal_in seal.now)) state.new voice.new }
{
    let x = seal_in(seal);
    let read = read_book(book);
    if refuses_book(x, managed != 0, NodeId(bus), &read) {
        return u32::from(read_number(&read));
    }
    let s = state_in(state);
    let w = wish_in(read, managed, bus, pan, rank);
    let r = piecrag::board_spawn(x, s, nodes, edges, voices, steals, w);
    *voice = r.answer.map_or(*voice, |id| id.0);
    settle_result(state, r)
}
