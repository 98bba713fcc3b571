// Histories of the event queue, on a table of this program.
// Output, input and position stay three parameters: a struct of them would be taken apart at each reader of `codec` and `script`.
use codec::field::{NOWHERE, after, byte_at, calls, long_at};
use codec::line::{action_words, refused_line};
use codec::output::{Output, end_line, text};
use codec::word::{Word, and_word};
use event_table::queue::{count_due, is_due, remove_due, schedule};
use event_table::row::{EVENT_WORDS, EventTable, event_at};
use node::name::{Name, is_named, name_of};
use node::record::VoiceId;
use scheduler::event::Event;
use script::glide::{action_of, glide_at};
use script::name::{name_at, name_end};

// The queue of this program: the words of its table, and how many events wait in it.
// Table and count stand side by side, since each call of the queue is lent the words and given the count.
#[derive(Drop)]
struct Queue {
    rows: EventTable,
    count: usize,
}

// Schedules the event at `at`: time, voice, name and action. Crate transcript has the lines of an answer too, and takes crates that the vectors have no
// need of.
fn scheduled(out: &mut Output, s: &[u8], at: usize, queue: &mut Queue) -> usize {
    let name = after(at, 16);
    let end = name_end(s, name);
    let event = Event {
        time: long_at(s, at),
        voice: VoiceId(long_at(s, after(at, 8))),
        name: name_of(name_at(s, name)),
        action: action_of(byte_at(s, end), glide_at(s, after(end, 1))),
    };
    match schedule(&mut queue.rows, queue.count, event) {
        Ok(count) => {
            queue.count = count;
            text(out, b"done\n");
        }
        Err(refusal) => refused_line(out, refusal),
    }
    after(end, 15)
}

// The bytes themselves with a space before them. Crate transcript has them in hexadecimal, so that its lines of events are others.
fn name_word(out: &mut Output, name: Name) {
    if !is_named(name) {
        text(out, b" -");
        return;
    }
    text(out, b" ");
    text(out, name.text());
}

fn event_line(out: &mut Output, e: Event) {
    e.time.put(out);
    and_word(out, e.voice);
    action_words(out, e.action, |o: &mut Output| name_word(o, e.name));
    end_line(out);
}

// The events by an index: a row is so many words of a lent table, and no slice of rows is there.

// So many events, each on its line.
fn event_lines(out: &mut Output, queue: &Queue) {
    and_word(out, queue.count);
    end_line(out);
    for i in 0..queue.count {
        event_line(out, event_at(&queue.rows, i));
    }
}

// The events that are due.
fn due_lines(out: &mut Output, queue: &Queue, deadline: u64) {
    for i in 0..queue.count {
        if is_due(&queue.rows, i, deadline) {
            event_line(out, event_at(&queue.rows, i));
        }
    }
}

fn taken(out: &mut Output, s: &[u8], at: usize, queue: &mut Queue) -> usize {
    let deadline = long_at(s, at);
    text(out, b"taken");
    and_word(out, count_due(&queue.rows, queue.count, deadline));
    end_line(out);
    due_lines(out, queue, deadline);
    queue.count = remove_due(&mut queue.rows, queue.count, deadline);
    after(at, 8)
}

// One call, by docs/VECTORS.md, which numbers the sorts: 1 schedules an event, any other takes those before a deadline.
// The byte is matched itself: an enum of the sorts would be made by the same match, and matched once more.
fn play(out: &mut Output, s: &[u8], at: usize, queue: &mut Queue) -> usize {
    match byte_at(s, at) {
        1 => scheduled(out, s, after(at, 1), queue),
        _ => taken(out, s, after(at, 1), queue),
    }
}

// How many calls, and the calls; then the events that wait.
// NOWHERE and no Option where a call ends past the input: whoever calls asks of each end whether it is past the input.
pub fn history(out: &mut Output, s: &[u8], at: usize) -> usize {
    let mut queue = Queue {
        rows: [0; EVENT_WORDS],
        count: 0,
    };
    let Some(end) = calls(s, at, |from| play(out, s, from, &mut queue)) else {
        return NOWHERE;
    };
    text(out, b"waiting");
    event_lines(out, &queue);
    end
}
