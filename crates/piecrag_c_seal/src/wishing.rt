// A wish for a spawn, with the definition of a book. A seal leaves open wishes for the spawns that it leaves open.
ghost use Rattle.words.specs.Fields.{is_set};
ghost use Rattle.def_book.specs.Read.{read_book};
ghost use Rattle.memory.specs.View.{Memory};
ghost use Rattle.piecrag_c_seal.specs.Book.{WishFromBook};

use crate::from_book::{refuses_book, wish_in};
use book_bytes::read::read_book;
use c_answer::answer::result_code;
use c_answer::keyboards::settle_waiting;
use def_book::answer::read_number;
use node::record::NodeId;
use piecrag::WishTable;
use seal_words::{SealWords, seal_in};
use wish_state_words::{WaitingWords, waiting_in};

// A keyboard's wish for a spawn, which waits for its turn.
#[unsafe(no_mangle)]
pub extern "C" fn piecrag_wish(
    seal: &SealWords,
    waiting: &mut WaitingWords,
    wishes: &mut WishTable,
    keyboard: usize,
    managed: u32,
    book: &[u8],
    bus: u32,
    pan: f32,
    rank: u32,
) -> u32
    ensures { (m : Memory) → WishFromBook (read_book book.now) keyboard (is_set managed) (record { 0 = bus }) pan rank m seal.now waiting.old wishes.old result waiting.new wishes.new }
{
    let x = seal_in(seal);
    let read = read_book(book);
    if refuses_book(x, managed != 0, NodeId(bus), &read) {
        return u32::from(read_number(&read));
    }
    let s = waiting_in(waiting);
    let wish = wish_in(read, managed, bus, pan, rank);
    let r = piecrag::board_wish(x, s, wishes, keyboard, wish);
    settle_waiting(waiting, r.wishes, r.answer.is_err());
    result_code(r.answer)
}
