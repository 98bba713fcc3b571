// Pending events.
// Rows are read by their index: a row is so many words of a lent table, and no slice of rows is there.
use crate::line_words::name_word;
use codec::line::action_words;
use codec::output::{Output, end_line, text};
use codec::word::and_word;
use event_table::row::{EVENTS, EventTable, event_at};
use memory::state::State;
use scheduler::event::Event;

fn event_line(out: &mut Output, e: Event) {
    text(out, b"event");
    and_word(out, e.time);
    and_word(out, e.voice);
    action_words(out, e.action, |o: &mut Output| name_word(o, e.name));
    end_line(out);
}

pub fn event_lines(out: &mut Output, s: State, events: &EventTable) {
    for i in 0..s.events.min(EVENTS) {
        event_line(out, event_at(events, i));
    }
}
