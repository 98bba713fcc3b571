// The queue of pending events: the first `count` rows of its table, by time, equal times in the order in which they came. A
// count above the room is the room. What a deadline takes is read row by row first (`is_due`, `event_at`), and removed then.
ghost use Rattle.std.specs.Prelude.{◌≡◌, List, [], ℕ, ◌+◌, ◌<◌, length, take, get_or};
ghost use Rattle.scheduler.specs.Queue.{Place, inserted, full, due, taken_before, left_after};
ghost use Rattle.words.specs.Place.{Holds};
ghost use Rattle.event_table.specs.Rows.{event_of, events_in};
ghost use Rattle.event_table.specs.Key.{thinned_by};
ghost use Rattle.event_table.specs.Queue.{Thinned, Queued};

use crate::replace::{Key, key_of, remove_replaced, row_replaced};
use crate::row::{EventTable, put_event, time_at};
use node::refusal::Refusal;
use scheduler::event::Event;
use words::table::{close_gaps, open_row};

// Whether the event in row `i` is due: its time is strictly below the deadline.
pub fn is_due(t: &[u32], i: usize, deadline: u64) -> bool
    ensures { result ≡ due deadline (get_or (events_in t.now) i (event_of [])) }
{
    time_at(t, i) < deadline
}

// The place at which an event belongs among the first `n`: before the first that is later. Any words are a queue, so it need not be ordered,
// and a bisection would not find the first.
fn place(t: &EventTable, n: usize, e: Event) -> usize
    requires { n < 256 }
    ensures { Place (take n (events_in t.now)) e result }
{
    (0..n).find(|i| e.time < time_at(t, *i)).unwrap_or(n)
}

// The event `e` at its place among the first `n`: the rows from there on move up by one.
fn insert(t: &mut EventTable, n: usize, e: Event)
    requires { n < 256 }
    ensures { take (n + 1) (events_in t.new) ≡ inserted e (take n (events_in t.old)) }
{
    let p = place(t, n, e);
    open_row(t, 15, n, p);
    put_event(t, p, e);
}

// Removes the events that are replaced: how many are left. A queue that has no place then, where none was removed, is refused.
fn make_place(t: &mut EventTable, count: usize, k: &Key) -> Result<usize, Refusal>
    ensures { Thinned (thinned_by k.now (take count (events_in t.old))) t.old result t.new }
{
    match row_replaced(t, count, k) {
        Some(p) => Ok(remove_replaced(t, count, p, k)),
        None => {
            if count < 256 {
                Ok(count)
            } else {
                Err(Refusal::TableFull)
            }
        }
    }
}

// Schedules an event: those that it replaces go, and it is taken, and the answer is how many events there are then; or it is refused where
// the queue has no place for it, and then the words are the very ones.
pub fn schedule(t: &mut EventTable, count: usize, e: Event) -> Result<usize, Refusal>
    ensures { Queued count e t.old result t.new }
{
    let left = make_place(t, count, &key_of(e))?;
    insert(t, left, e);
    Ok(left + 1)
}

// How many of the first `count` events are due.
pub fn count_due(t: &[u32], count: usize, deadline: u64) -> usize
    ensures { result ≡ length (taken_before deadline (take count (events_in t.now))) }
{
    let n = count.min(t.len() / 15);
    (0..n).filter(|i| is_due(t, *i, deadline)).count()
}

// Removes the events that are due: how many are left.
pub fn remove_due(t: &mut [u32], count: usize, deadline: u64) -> usize
    ensures { Holds (events_in t.new) result (left_after deadline (take count (events_in t.old))) }
{
    close_gaps(t, 15, 0, count, |t, i| !is_due(t, i, deadline))
}
