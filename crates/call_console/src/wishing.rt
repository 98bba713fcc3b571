// A refusal is handed on by `refuse_wish` and not by `?`, since what waits goes with every answer.
ghost use Rattle.std.specs.Prelude.{◌≡◌, Err};
ghost use Rattle.console.specs.Console.{wish};
ghost use Rattle.memory.specs.View.{Memory};
ghost use Rattle.call_console.specs.Called.{memory, wish_answer, Called, Kept};

use crate::queues::{WishResult, WishState, add_wish, keyboard_count, waiting_count};
use console::refusal::KeyboardRefusal;
use store::wish::Wish;
use wish_rows::row::WishTable;

// A wish that is refused, here or by a seal. What `refuse` of memory is for a state: it is not that function, since what is left has another type and name.
pub fn refuse_wish<A, E>(s: WishState, why: E) -> WishResult<Result<A, E>>
    ensures { (result.wishes ≡ s) × (result.answer ≡ Err why) }
{
    WishResult {
        wishes: s,
        answer: Err(why),
    }
}

// The wish `w` of a keyboard, which waits for its turn. Nothing of the spawn that it is for is tested.
pub fn wish(
    s: WishState,
    wishes: &mut WishTable,
    keyboard: usize,
    w: Wish,
) -> WishResult<Result<(), KeyboardRefusal>>
    ensures is { (m : Memory) → Called (wish keyboard w) (memory m s wishes.old) (wish_answer result.answer) (memory m result.wishes wishes.new) }
    ensures same { (m : Memory) → Kept (wish_answer result.answer) (memory m s wishes.old) (memory m result.wishes wishes.new) }
{
    if keyboard_count(s) <= keyboard {
        return refuse_wish(s, KeyboardRefusal::OutOfRange);
    }
    if 16 <= waiting_count(s, keyboard) {
        return refuse_wish(s, KeyboardRefusal::Full);
    }
    WishResult {
        wishes: add_wish(s, wishes, keyboard, w),
        answer: Ok(()),
    }
}
