// The console's answers as numbers, and when the words of what waits are written back. Numbers, since a host in C has no enums.
ghost use Rattle.std.specs.Prelude.{◌≡◌};
ghost use Rattle.call_console.specs.Called.{turn_answer};
ghost use Rattle.c_answer.specs.Console.{console_code, store_kept, WaitingSettled};

use crate::answer::{result_code, result_kept};
use call_console::queues::WishState;
use call_console::turning::Served;
use wish_state_words::{WaitingWords, put_waiting};

// What an empty turn answers, since C has no option: no refusal has this number, as those are bytes.
pub const EMPTY_TURN: u32 = 256;

pub fn turn_code(a: Option<Served>) -> u32
    ensures { result ≡ console_code (turn_answer a) }
{
    a.map_or(EMPTY_TURN, |served| result_code(served.answer))
}

pub fn turn_keeps_store(a: Option<Served>) -> bool
    ensures { result ≡ store_kept (turn_answer a) }
{
    a.is_none_or(|served| result_kept(served.answer))
}

// The state s of what waits is written to the words, unless they are kept. Why not by `settle`, and why `kept` is a value, the lines at it say.
pub fn settle_waiting(w: &mut WaitingWords, s: WishState, kept: bool)
    ensures { WaitingSettled w.old s kept w.new }
{
    if !kept {
        put_waiting(w, s);
    }
}
