// An event in 15 words: time 2, voice 2, name 5, action 6. A reader past the end gives what no words stand for, and no Option: the
// definitions read a list with that default, so that any words have a meaning, and with an Option each caller would name it again.
ghost use Rattle.std.specs.Prelude.{◌≡◌, [], get_or, set};
ghost use Rattle.words.specs.Rows.{row_at};
ghost use Rattle.event_table.specs.Rows.{action_from, action_at, event_of, events_in, Stands};

use node::order::{EventAction, LastOrder};
use node::record::VoiceId;
use scheduler::event::Event;
use words::fields::{
    float_at, float_word, glide_words, high_word, last_at, long_at, low_word, name_at, name_words,
};
use words::table::{put_row, word_at};

// The words of an event, how many events the table has room for, and the table.
pub const ROW: usize = 15;

pub const EVENTS: usize = 256;

pub const EVENT_WORDS: usize = 3840;

pub type EventTable = [u32; EVENT_WORDS];

// An action in six words: which, the target or value, the seconds, the shape and its exponent, the space. Which it is is a number, since lent words
// hold numbers. By `last_words` of words it would have these four arms too, and make a node's order in three of them first.
fn action_words(a: EventAction) -> [u32; 6]
    ensures { action_from (get_or result 0 0) (get_or result 1 0) (get_or result 2 0) (get_or result 3 0) (get_or result 4 0) (get_or result 5 0) ≡ a }
{
    match a {
        EventAction::Free => [0, 0, 0, 0, 0, 0],
        EventAction::Value(x) => [1, float_word(x), 0, 0, 0, 0],
        EventAction::Glide(g) => glide_words(g),
        EventAction::Gate(x) => [3, float_word(x), 0, 0, 0, 0],
    }
}

// The words of an event, one by one: copies of parts into an array say no more.
fn event_words(e: Event) -> [u32; 15]
    ensures { Stands e result }
{
    let n = name_words(e.name);
    let a = action_words(e.action);
    [
        low_word(e.time),
        high_word(e.time),
        low_word(e.voice.0),
        high_word(e.voice.0),
        n[0],
        n[1],
        n[2],
        n[3],
        n[4],
        a[0],
        a[1],
        a[2],
        a[3],
        a[4],
        a[5],
    ]
}

// The action of the event in row `i`: its words are those of a node's newest order, but for a gate, which has number 3: lent words hold numbers.
fn action_at(t: &[u32], i: usize) -> EventAction
    ensures { result ≡ action_at (row_at 15 i t.now) 9 }
{
    match last_at(t, 15, i, 9) {
        LastOrder::Value(x) => EventAction::Value(x),
        LastOrder::Glide(g) => EventAction::Glide(g),
        LastOrder::Nothing if word_at(t, 15, i, 9) == 3 => {
            EventAction::Gate(float_at(t, 15, i, 10))
        }
        LastOrder::Nothing => EventAction::Free,
    }
}

// The event in row `i`; past the end, the event of no words, all 0.
pub fn event_at(t: &[u32], i: usize) -> Event
    ensures { result ≡ get_or (events_in t.now) i (event_of []) }
{
    Event {
        time: long_at(t, 15, i, 0),
        voice: VoiceId(long_at(t, 15, i, 2)),
        name: name_at(t, 15, i, 4),
        action: action_at(t, i),
    }
}

// The time of the event in row `i`; 0 past the end.
pub fn time_at(t: &[u32], i: usize) -> u64
    ensures { result ≡ (get_or (events_in t.now) i (event_of [])).time }
{
    long_at(t, 15, i, 0)
}

// Row `i` is the event `e`; past the end nothing is stored.
pub fn put_event(t: &mut [u32], i: usize, e: Event)
    ensures { events_in t.new ≡ set (events_in t.old) i e }
{
    put_row(t, 15, i, &event_words(e));
}
