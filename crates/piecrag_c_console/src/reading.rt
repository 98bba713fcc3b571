// How many keyboards there are, what waits at one, and whose turn it is. Exported names, so that calls that are alike stay functions of their
// own; a flag stands beside the cell of which it tells, since C has no option.
ghost use Rattle.std.specs.Prelude.{◌≡◌, List, ℕ, length};
ghost use Rattle.console.specs.Wishes.{keyboards, waiting_at, picked};
ghost use Rattle.call_console.specs.Queues.{wishes_of};
ghost use Rattle.state_words.specs.State.{some_flag};
ghost use Rattle.wish_state_words.specs.Waiting.{waiting_in};
ghost use Rattle.piecrag_c_console.specs.Next.{picked_cell};

use c_answer::answer::put_cell;
use call_console::queues::next_keyboard;
use wish_state_words::{WaitingWords, waiting_in};

// How many keyboards there are.
#[unsafe(no_mangle)]
pub extern "C" fn piecrag_keyboard_count(waiting: &WaitingWords, count: &mut usize) -> u32
    ensures { (result ≡ 0) × ((c : List ℕ) → count.new ≡ keyboards (wishes_of (waiting_in waiting.now) c)) }
{
    let s = waiting_in(waiting);
    *count = piecrag::keyboard_count(s);
    0
}

// How many wishes wait at a keyboard.
#[unsafe(no_mangle)]
pub extern "C" fn piecrag_waiting_count(
    waiting: &WaitingWords,
    keyboard: usize,
    count: &mut usize,
) -> u32
    ensures { (result ≡ 0) × ((c : List ℕ) → count.new ≡ length (waiting_at keyboard (wishes_of (waiting_in waiting.now) c))) }
{
    let s = waiting_in(waiting);
    *count = piecrag::waiting_count(s, keyboard);
    0
}

// The keyboard that the next turn serves: `found` becomes 1, or 0 where no wish waits.
#[unsafe(no_mangle)]
pub extern "C" fn piecrag_next_keyboard(
    waiting: &WaitingWords,
    found: &mut u32,
    keyboard: &mut usize,
) -> u32
    ensures { (result ≡ 0) × ((c : List ℕ) → (found.new ≡ some_flag (picked (wishes_of (waiting_in waiting.now) c))) × (keyboard.new ≡ picked_cell (picked (wishes_of (waiting_in waiting.now) c)) keyboard.old)) }
{
    let s = waiting_in(waiting);
    let next = next_keyboard(s);
    put_cell(found, keyboard, next);
    0
}
