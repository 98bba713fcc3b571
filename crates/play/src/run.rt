// Plays a script, and writes its transcript.
use crate::player::{first_board, play_entry};
use crate::slots::{is_kept, keep, no_slots, slot_at};
use crate::window::{LastRead, Window, unread};
use codec::descriptor::STDERR;
use codec::field::after;
use codec::line::word_line;
use codec::output::{Output, flush, has_failed, output_room};
use piecrag::{
    EDGE_WORDS, EVENT_WORDS, NODE_WORDS, ORDER_WORDS, STEAL_WORDS, VOICE_WORDS, WISH_WORDS,
};

// The last line, when no entry was left. What fails is said on standard error too: a program of this language has no exit status.
fn end_run(out: &mut Output, window: &Window) {
    if let LastRead::Failure = window.last {
        word_line(out, b"unread", after(window.base, window.held));
        io::write_all(STDERR, b"the script cannot be read on\n");
    } else if window.end == window.held {
        word_line(out, b"played", window.count);
    } else {
        word_line(out, b"malformed", after(window.base, window.end));
    }
    flush(out);
    if has_failed(out) {
        io::write_all(STDERR, b"the transcript cannot be written\n");
    }
}

// Plays the script on newly made stores, and writes the transcript to standard output.
pub fn play_input<S: std::io::Read>(input: &mut S) {
    let mut window = unread();
    let mut out = output_room();
    // Seven variables and no struct of them: it would be declared and made for this one function, and each call would be lent its fields one by one.
    let mut nodes = [0u32; NODE_WORDS];
    let mut edges = [0u32; EDGE_WORDS];
    let mut order = [0u32; ORDER_WORDS];
    let mut voices = [0u32; VOICE_WORDS];
    let mut events = [0u32; EVENT_WORDS];
    let mut steals = [0u32; STEAL_WORDS];
    let mut wishes = [0u32; WISH_WORDS];
    let mut board = first_board();
    let mut slots = no_slots();
    // A `for` with no end in practice, since every loop is proved to end.
    for _ in 0..u64::MAX {
        let Some(at) = window.next_entry(input) else {
            break;
        };
        if has_failed(&out) {
            break;
        }
        if is_kept(&window.bytes, at) {
            keep(&mut out, &window.bytes, at, &mut slots);
        } else {
            let def = slot_at(&window.bytes, at, &slots);
            board = play_entry(
                &mut out,
                &window.bytes,
                at,
                def,
                board,
                &mut nodes,
                &mut edges,
                &mut order,
                &mut voices,
                &mut events,
                &mut steals,
                &mut wishes,
            );
        }
    }
    end_run(&mut out, &window);
}
