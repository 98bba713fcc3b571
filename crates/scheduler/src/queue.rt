ghost use Rattle.std.specs.Prelude.{◌≡◌, ◌≤◌, ◌<◌, [], length, take, drop, eqb};
ghost use Rattle.scheduler.specs.Event.{param_of};
ghost use Rattle.scheduler.specs.Replace.{same_sort, replaces, thinned};
ghost use Rattle.scheduler.specs.Queue.{inserted, full, queue_after, answer_to, taken_before, left_after};
ghost use Rattle.scheduler.specs.Sorted.{Sorted};

use crate::event::{Event, param_order};
use arrayvec::ArrayVec;
use node::name::same_name;
use node::order::EventAction;
use node::refusal::Refusal;
use std::marker::Model;

/// The pending events, at most 256: by time, and events of one time in the order in which they came.
#[derive(Drop)]
pub struct Scheduler {
    events: ArrayVec<Event, 256>,
}

impl Model for Scheduler {
    ghost use Rattle.std.specs.Prelude.{List, ◌≤◌, length};
    ghost use Rattle.scheduler.specs.declared.event.Event.{Event};
    ghost use Rattle.scheduler.specs.Sorted.{Sorted};

    ghost Value = { List Event };

    ghost view = { λ s. s.events.items };

    ghost invariant = { λ s. (length s.events.items ≤ 256) × Sorted s.events.items };
}

// Whether two actions order the same sort of thing: a value, as a gate does too, or a glide. A free is of no sort.
fn same_sort(a: EventAction, b: EventAction) -> bool
    ensures { result ≡ same_sort a b }
{
    match a {
        EventAction::Value(_) | EventAction::Gate(_) => {
            matches!(b, EventAction::Value(_) | EventAction::Gate(_))
        }
        EventAction::Glide(_) => matches!(b, EventAction::Glide(_)),
        EventAction::Free => false,
    }
}

// Whether the new event `e` takes the place of the pending event `f`.
fn replaces(e: &Event, f: &Event) -> bool
    ensures { result ≡ replaces e.now f.now }
{
    e.time == f.time
        && e.voice == f.voice
        && same_sort(e.action, f.action)
        && same_name(param_order(*e).name, param_order(*f).name)
}

// Whether the table is full and no event goes to make room for `e`.
fn no_room(events: &ArrayVec<Event, 256>, e: &Event) -> bool
    ensures { result ≡ full (thinned e.now events.now.items) }
{
    events.is_full() && !events.as_slice().iter().any(|f| replaces(e, f))
}

// Drops the events that `e` replaces.
fn thin(events: &mut ArrayVec<Event, 256>, e: &Event)
    ensures { events.new.items ≡ thinned e.now events.old.items }
{
    events.retain(|f| !replaces(e, f));
}

// Puts `e` behind the events that are not later.
fn insert(events: &mut ArrayVec<Event, 256>, e: Event)
    requires sorted { Sorted events.old.items }
    requires room { length events.old.items < 256 }
    ensures { events.new.items ≡ inserted e events.old.items }
{
    let place = events.as_slice().partition_point(|f| f.time <= e.time);
    events.insert(place, e);
}

// How many of the events are due: the first ones.
fn count_due(events: &[Event], deadline: u64) -> usize
    requires { Sorted events.now }
    ensures bound { result ≤ length events.now }
    ensures due { take result events.now ≡ taken_before deadline events.now }
    ensures left { drop result events.now ≡ left_after deadline events.now }
{
    events.partition_point(|f| f.time < deadline)
}

// Drops the first `n` events.
fn drop_first(events: &mut ArrayVec<Event, 256>, n: usize)
    requires { n ≤ length events.old.items }
    ensures { events.new.items ≡ drop n events.old.items }
{
    if 0 < n {
        events.drain(..n);
    }
}

impl Scheduler {
    /// No pending event.
    pub fn new() -> Scheduler
        ensures { result ≡ [] }
    {
        Scheduler {
            events: ArrayVec::new(),
        }
    }

    /// The pending events, by time.
    pub fn events(&self) -> &[Event]
        ensures value { result.now ≡ self.now }
        ensures fits { length self.now ≤ 256 }
        ensures sorted { Sorted self.now }
    {
        self.events.as_slice()
    }

    /// How many events are pending: 0 to 256.
    pub fn len(&self) -> usize
        ensures value { result ≡ length self.now }
        ensures fits { result ≤ 256 }
    {
        self.events.len()
    }

    /// Whether no event is pending.
    pub fn is_empty(&self) -> bool
        ensures { result ≡ eqb (length self.now) 0 }
    {
        self.events.is_empty()
    }

    /// Schedules an event: it replaces the pending events of its time, voice, sort and parameter, and stands behind the others of its time.
    /// Refusal 7 where the table is full then, and the pending events stay.
    pub fn schedule(&mut self, event: Event) -> Result<(), Refusal>
        ensures answer { result ≡ answer_to event self.old }
        ensures events { self.new ≡ queue_after event self.old }
    {
        if no_room(&self.events, &event) {
            return Err(Refusal::TableFull);
        }
        thin(&mut self.events, &event);
        insert(&mut self.events, event);
        Ok(())
    }

    /// The events that are due, in order: those of times strictly below the deadline.
    pub fn due(&self, deadline: u64) -> &[Event]
        ensures value { result.now ≡ taken_before deadline self.now }
        ensures fits { length result.now ≤ 256 }
    {
        let events = self.events.as_slice();
        &events[..count_due(events, deadline)]
    }

    /// Drops the events that are due.
    pub fn drain_before(&mut self, deadline: u64)
        ensures { self.new ≡ left_after deadline self.old }
    {
        let due = count_due(self.events.as_slice(), deadline);
        drop_first(&mut self.events, due);
    }
}
