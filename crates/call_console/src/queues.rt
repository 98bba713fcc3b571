// Which rows of the lent wishes wait, keyboard by keyboard.
ghost use Rattle.std.specs.Prelude.{◌≡◌, List, [], ℕ, ◌+◌, ◌*◌, ◌%◌, ◌<◌, ◌≤◌, min, length, get_or};
ghost use Rattle.wish_rows.specs.Rows.{wish_of, wishes_in};
ghost use Rattle.console.specs.Wishes.{keyboards, waiting_at, after, added, picked, taken_from, new_wishes};
ghost use Rattle.call_console.specs.Queues.{no_queue, place_in, wishes_of, picked_at, Capacity, Waits, WaitsAt};

use memory::state::State;
use std::iter::successors;
use store::wish::Wish;
use wish_rows::row::{WishTable, put_wish, wish_at};

// A keyboard's wishes are `count` of its 16 rows, from its row `start` on, going round. A count above 16 is 16. The rows themselves are lent:
// there is no slice of rows, and no queue of the library over lent words.
#[derive(Clone, Copy)]
pub struct Queue {
    pub start: u8,
    pub count: u8,
}

// What is no table of the wishes: how many keyboards there are, the one after the last served, and what waits at each. More than
// eight keyboards are eight. Fixed memory: an array holds the queues. No `Table` of lists: the bound is asked for in two places below, and each
// other use would name one field more.
// The lent wishes are a parameter beside it, as the tables are beside `State`: a signature shows what a call may touch.
#[derive(Clone, Copy)]
pub struct WishState {
    pub keyboards: usize,
    pub next: usize,
    pub queues: [Queue; 8],
}

// The state of the store and the wishes that a call left, and what the call answers: beside each other, since a turn changes them where its spawn
// is refused. This type, `WishResult`, `CallResult` and `SealResult` are four and not one over what is left: each names what that is.
#[derive(Clone, Copy)]
pub struct ConsoleResult<A> {
    pub state: State,
    pub wishes: WishState,
    pub answer: A,
}

// The same of a call that leaves the store as it is: no state of the store, so that its signature shows that.
#[derive(Clone, Copy)]
pub struct WishResult<A> {
    pub wishes: WishState,
    pub answer: A,
}

// Nothing waits at so many keyboards, whatever stands in the lent words.
pub(crate) fn new_wishes(keyboards: usize) -> WishState
    ensures { keyboards ≤ 8 → (c : List ℕ) → wishes_of result c ≡ new_wishes keyboards }
{
    WishState {
        keyboards,
        next: 0,
        queues: [Queue { start: 0, count: 0 }; 8],
    }
}

// How many keyboards there are.
pub fn keyboard_count(s: WishState) -> usize
    ensures { (c : List ℕ) → result ≡ keyboards (wishes_of s c) }
{
    s.keyboards.min(8)
}

// How many wishes wait at keyboard `q`.
pub fn waiting_count(s: WishState, q: usize) -> usize
    ensures { (c : List ℕ) → result ≡ length (waiting_at q (wishes_of s c)) }
{
    s.queues[..s.keyboards.min(8)]
        .get(q)
        .map_or(0, |queue| usize::from(queue.count).min(16))
}

// The keyboard after `q` of `m`, going round. Two tests: `(q + 1) % m` is another number where `q` is past the last, and `q + 1` need not fit.
fn after(m: usize, q: usize) -> usize
    ensures { result ≡ after m q }
{
    if q < m && q + 1 < m { q + 1 } else { 0 }
}

// The first keyboard at which a wish waits, going round from the one after the last served.
pub fn next_keyboard(s: WishState) -> Option<usize>
    ensures is { (c : List ℕ) → picked (wishes_of s c) ≡ picked_at result (wishes_of s c) }
    ensures waits { WaitsAt s result }
{
    let m = keyboard_count(s);
    successors(Some(s.next), |q| Some(after(m, *q)))
        .take(m)
        .find(|q| 0 < waiting_count(s, *q))
}

// The wish `w` waits behind those of keyboard `q`.
pub(crate) fn add_wish(s: WishState, t: &mut WishTable, q: usize, w: Wish) -> WishState
    requires { Capacity s q }
    ensures { wishes_of result t.new ≡ added q w (wishes_of s t.old) }
{
    let queue = s.queues[q];
    // `as`: with `usize::from` the goal `overflow_add-place` stayed open (tried), since its answer is not known to be below 256.
    let place = (queue.start as usize + queue.count as usize) % 16;
    put_wish(t, q * 16 + place, w);
    let mut out = s;
    out.queues[q].count = queue.count + 1;
    out
}

// The oldest wish of keyboard `q`. A keyboard at which a wish waits is a number with a `requires`, here and below: a struct with the fact in a
// ghost field would hold the state too, and `turn` alone would make it and take it apart.
pub(crate) fn oldest_wish(s: WishState, t: &WishTable, q: usize) -> Wish
    requires { Waits s q }
    ensures { result ≡ get_or (wishes_in t.now) (place_in q (get_or s.queues q no_queue) 0) (wish_of []) }
{
    let queue = s.queues[q];
    wish_at(t, q * 16 + usize::from(queue.start) % 16)
}

// The oldest wish of keyboard `q` waits no more, and the next turn begins behind that keyboard.
pub(crate) fn drop_oldest(s: WishState, q: usize) -> WishState
    requires { Waits s q }
    ensures { (c : List ℕ) → wishes_of result c ≡ taken_from q (wishes_of s c) }
{
    let queue = s.queues[q];
    let mut queues = s.queues;
    queues[q] = Queue {
        // `as`: with `usize::from` the goal `overflow_add-queues` stayed open (tried), since its answer is not known to be below 256.
        start: ((queue.start as usize + 1) % 16) as u8,
        count: queue.count.min(16) - 1,
    };
    WishState {
        next: after(keyboard_count(s), q),
        queues,
        ..s
    }
}
