// Answers vectors: reads them from standard input, calls the proved functions, and writes what they answer, for comparison with
// what the older program in Rust answers. docs/VECTORS.md describes the input and the lines.
#![tactic(auto)]

use codec::descriptor::STDIN;
use codec::field::{NOWHERE, after, byte_at, calls, input_room, word_at};
use codec::line::word_line;
use codec::output::{Output, flush, retrying_room, text};
use vec_bus::blocks::{Bus, Store};
use vec_bus::{blocks, levels};
use vec_graph::script;
use vec_synthdef::definition;
use vec_voice::{queues, victims};
use vec_whole::blocks::WholeStore;

// Answers the vector at `at` by its sort, which docs/VECTORS.md numbers, and gives the position after it.
// The byte is matched itself: an enum of the sorts would be made by the same match, and matched once more.
// NOWHERE and no Option for a sort that there is not: one test of an end finds it and an input that is too short.
fn answer(out: &mut Output, s: &[u8], at: usize) -> usize {
    let from = after(at, 1);
    match byte_at(s, at) {
        1 => levels::root(out, s, from),
        2 => levels::narrowing(out, s, from),
        3 => levels::block(out, s, from),
        11 => blocks::rate(out, s, from),
        12 => blocks::fade_lengths(out, s, from),
        13 => blocks::seed(out, s, from),
        14 => blocks::fade(out, s, from, &Bus),
        15 => blocks::sum(out, s, from, &Bus),
        16 => blocks::fade(out, s, from, &Store { table: false }),
        17 => blocks::fade(out, s, from, &Store { table: true }),
        18 => blocks::sum(out, s, from, &Store { table: false }),
        21 => script(out, s, from),
        31 => queues::history(out, s, from),
        41 => victims::victim(out, s, from),
        42 => victims::admission(out, s, from),
        43 => victims::steals(out, s, from),
        51 => definition(out, s, from),
        61 => blocks::fade(out, s, from, &WholeStore { table: false }),
        62 => blocks::fade(out, s, from, &WholeStore { table: true }),
        63 => blocks::sum(out, s, from, &WholeStore { table: false }),
        _ => NOWHERE,
    }
}

// Answers each vector of the input. One that runs past the input's end is the last.
fn answer_all(out: &mut Output, s: &[u8]) {
    match calls(s, 0, |at| answer(out, s, at)) {
        Some(_) => word_line(out, b"vectors", word_at(s, 0)),
        None => text(out, b"malformed\n"),
    }
}

fn main() {
    let mut space = input_room();
    let n = io::read_full(STDIN, &mut space);
    let mut out = retrying_room();
    answer_all(&mut out, &space[..n]);
    flush(&mut out);
}
