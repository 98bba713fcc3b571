// What a console holds beside its table of wishes, in 12 lent words, for a host that holds words only. Any words stand for such a state.
#![tactic(auto)]

ghost use Rattle.std.specs.Prelude.{◌≡◌};
ghost use Rattle.wish_state_words.specs.Waiting.{queue_from, waiting_in};

use call_console::queues::{Queue, WishState};
use words::fields::{byte_word, high_word, long_from, low_word};

pub const WAITING_WORDS: usize = 12;

pub type WaitingWords = [u32; WAITING_WORDS];

// A queue in a word.
fn queue_word(q: Queue) -> u32
    ensures { queue_from result ≡ q }
{
    byte_word(q.start, q.count, 0, 0)
}

fn queue_from(x: u32) -> Queue
    ensures { result ≡ queue_from x }
{
    let [start, count, _, _] = x.to_le_bytes();
    Queue { start, count }
}

// The state that the words stand for.
pub fn waiting_in(w: &WaitingWords) -> WishState
    ensures { result ≡ waiting_in w.now }
{
    WishState {
        keyboards: long_from(w[0], w[1]) as usize,
        next: long_from(w[2], w[3]) as usize,
        queues: std::array::from_fn(|k| queue_from(w[4 + k])),
    }
}

// The lent words become those of the state. Word by word, since the list is the layout.
pub fn put_waiting(w: &mut WaitingWords, s: WishState)
    ensures { waiting_in w.new ≡ s }
{
    let q = s.queues;
    *w = [
        low_word(s.keyboards as u64),
        high_word(s.keyboards as u64),
        low_word(s.next as u64),
        high_word(s.next as u64),
        queue_word(q[0]),
        queue_word(q[1]),
        queue_word(q[2]),
        queue_word(q[3]),
        queue_word(q[4]),
        queue_word(q[5]),
        queue_word(q[6]),
        queue_word(q[7]),
    ];
}
