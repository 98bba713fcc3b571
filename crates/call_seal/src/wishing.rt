// A refusal is handed on by `refuse_wish` and not by `?`, since what waits goes with every answer.
ghost use Rattle.memory.specs.View.{Memory};
ghost use Rattle.console.specs.Console as console;
ghost use Rattle.sealed.specs.Board.{on};
ghost use Rattle.call_seal.specs.Board.{board, BoardCalled, BoardKept, wished_answer};

use crate::closing::{BoardRefusal, opened, shuts_spawn};
use call_console::queues::{WishResult, WishState};
use call_console::wishing::refuse_wish;
use console::refusal::KeyboardRefusal;
use sealed::profile::Seal;
use store::wish::Wish;
use wish_rows::row::WishTable;

// The wish of a keyboard, unless the seal closes the spawn that it is for.
pub fn wish(
    x: Seal,
    w: WishState,
    wishes: &mut WishTable,
    keyboard: usize,
    wish: Wish,
) -> WishResult<Result<(), BoardRefusal<KeyboardRefusal>>>
    ensures is { (m : Memory) → BoardCalled (on (console.wish keyboard wish)) (board m w wishes.old x) (wished_answer result.answer) (board m result.wishes wishes.new x) }
    ensures same { (m : Memory) → BoardKept (wished_answer result.answer) (board m w wishes.old x) (board m result.wishes wishes.new x) }
{
    if shuts_spawn(
        x,
        wish.managed,
        wish.bus,
        wish.def.nodes.count,
        wish.def.edges.count,
    ) {
        return refuse_wish(w, BoardRefusal::Closed);
    }
    let given = call_console::wishing::wish(w, wishes, keyboard, wish);
    WishResult {
        wishes: given.wishes,
        answer: opened(given.answer),
    }
}
