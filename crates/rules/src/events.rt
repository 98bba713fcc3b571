//! Pending events.

ghost use Rattle.rules.specs.Events.{PendingAlways, QueueAlways};

/// After every list of calls on a newly made store, of every next call: scheduling is refused with 7 exactly when 256
/// events are pending and the new one replaces none, else the new one stands at the end of its time and what it
/// replaces is gone; a render takes exactly the events before the end of its block; and every other call leaves the
/// very queue.
pub fn only_schedule_and_render_change_what_is_pending()
    ensures { PendingAlways }
{}

/// After every list of calls on a newly made store at most 256 events are pending, and they stand in the order of
/// their times.
pub fn pending_events_stand_in_the_order_of_their_times()
    ensures { QueueAlways }
{}
