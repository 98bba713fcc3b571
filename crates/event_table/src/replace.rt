// Which pending events a new one replaces, and their removal from the table. What decides is the new event's time, its voice, whether it
// orders a value or a glide, and the name of its parameter in words: a row is told by comparing words, and no name is spelled out.
ghost use Rattle.std.specs.Prelude.{◌≡◌, ◌&&◌, [], ◌-◌, take, get_or, Some, position};
ghost use Rattle.node.specs.Name.{same_name};
ghost use Rattle.scheduler.specs.Replace.{is_value, is_glide};
ghost use Rattle.words.specs.Fields.{name_at};
ghost use Rattle.words.specs.Rows.{row_at};
ghost use Rattle.words.specs.Place.{Holds};
ghost use Rattle.event_table.specs.Rows.{action_at, event_of, events_in};
ghost use Rattle.event_table.specs.Key.{KeyOf, same_four, same_order, replaces_by, thinned_by};

use crate::row::time_at;
use node::name::{name_length, same_name};
use node::order::EventAction;
use node::record::VoiceId;
use scheduler::event::{Event, gate_name, param_order};
use words::fields::{long_at, name_words};
use words::table::{close_gaps, first_row, word_at};

// What of a new event decides whom it replaces. `gate` says that the parameter is `gate`, and `name` is its name in words. Flags and no enum:
// they are the tests that `replaces` makes, `value` and `glide` of the action, `gate` of the name.
#[derive(Clone, Copy)]
pub(crate) struct Key {
    time: u64,
    voice: VoiceId,
    value: bool,
    glide: bool,
    gate: bool,
    name: [u32; 5],
}

fn is_value(a: EventAction) -> bool
    ensures { result ≡ is_value a }
{
    matches!(a, EventAction::Value(_) | EventAction::Gate(_))
}

fn is_glide(a: EventAction) -> bool
    ensures { result ≡ is_glide a }
{
    matches!(a, EventAction::Glide(_))
}

pub(crate) fn key_of(e: Event) -> Key
    ensures { KeyOf e result }
{
    let name = param_order(e).name;
    Key {
        time: e.time,
        voice: e.voice,
        value: is_value(e.action),
        glide: is_glide(e.action),
        gate: same_name(name, gate_name()),
        name: name_words(name),
    }
}

// The tests below compare a row's words with a key's. Tried with names, by `name_at` and `same_name`: where the first of 256 events of one voice is
// replaced, that took 1.22 times as long, which makes 2.1 µs of 1.7 (docs/DECISIONS.md, 174), and the paper leaves 2 (docs/CHANGES.md, "Paper 9").

// Whether the first `n` bytes of two words are the same; a word has four.
fn same_four(x: u32, y: u32, n: usize) -> bool
    ensures { result ≡ same_four n x y }
{
    match n {
        0 => true,
        1 => x % 256 == y % 256,
        2 => x % 65536 == y % 65536,
        3 => x % 16777216 == y % 16777216,
        _ => x == y,
    }
}

// Whether the first `n` bytes of the name in row `i` are those of the name in the words `ws`.
fn same_text(t: &[u32], i: usize, ws: &[u32; 5], n: usize) -> bool
    ensures { result ≡ (same_four n (get_or ws.now 0 0) (get_or (row_at 15 i t.now) 4 0) && (same_four (n - 4) (get_or ws.now 1 0) (get_or (row_at 15 i t.now) 5 0) && (same_four (n - 8) (get_or ws.now 2 0) (get_or (row_at 15 i t.now) 6 0) && same_four (n - 12) (get_or ws.now 3 0) (get_or (row_at 15 i t.now) 7 0)))) }
{
    (0..4).all(|k| same_four(ws[k], word_at(t, 15, i, 4 + k), n.saturating_sub(4 * k)))
}

// Whether the name in row `i` is the one in the words `ws`.
fn same_called(t: &[u32], i: usize, ws: &[u32; 5]) -> bool
    ensures { result ≡ same_name (name_at ws.now 0) (name_at (row_at 15 i t.now) 4) }
{
    let len = ws[4] % 256;
    let n = len as usize;
    name_length(n) && word_at(t, 15, i, 8) % 256 == len && same_text(t, i, ws, n)
}

// Whether the event in row `i` is of the key's sort and for its parameter. The sort is a number, as the words hold it.
fn same_order(t: &[u32], i: usize, k: &Key) -> bool
    ensures { result ≡ same_order k.now (action_at (row_at 15 i t.now) 9) (name_at (row_at 15 i t.now) 4) }
{
    match word_at(t, 15, i, 9) {
        1 => k.value && same_called(t, i, &k.name),
        2 => k.glide && same_called(t, i, &k.name),
        3 => k.value && k.gate,
        _ => false,
    }
}

// Whether the event in row `i` is one that the key's replaces.
fn is_replaced(t: &[u32], i: usize, k: &Key) -> bool
    ensures { result ≡ replaces_by k.now (get_or (events_in t.now) i (event_of [])) }
{
    k.time == time_at(t, i) && k.voice == VoiceId(long_at(t, 15, i, 2)) && same_order(t, i, k)
}

// The row of the first event among the first `count` that is replaced, or none.
pub(crate) fn row_replaced(t: &[u32], count: usize, k: &Key) -> Option<usize>
    ensures { result ≡ position (replaces_by k.now) (take count (events_in t.now)) }
{
    first_row(t, 15, count, |t, i| is_replaced(t, i, k))
}

// Removes the events that are replaced, of which row `p` is the first: how many are left.
pub(crate) fn remove_replaced(t: &mut [u32], count: usize, p: usize, k: &Key) -> usize
    requires { position (replaces_by k.now) (take count (events_in t.old)) ≡ Some p }
    ensures { Holds (events_in t.new) result (thinned_by k.now (take count (events_in t.old))) }
{
    close_gaps(t, 15, p, count, |t, i| !is_replaced(t, i, k))
}
