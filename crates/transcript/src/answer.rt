// What a call answers, in one line. Also a line that is one call of `word_line` has a function, so that this crate alone has a transcript's words.
use call_console::making::MakeRefusal;
use call_param::number::outcome_number;
use call_seal::closing::BoardRefusal;
use codec::line::word_line;
use codec::output::{Output, end_line, hex_bytes, text};
use codec::word::and_word;
use console::refusal::{KeyboardRefusal, keyboard_refusal_number};
use node::refusal::{Refusal, refusal_number};
use sealed::refusal::{SealRefusal, seal_refusal_number};
use store::answer::{Outcome, Rendered};

// Why a call was refused, by whom it was. Numbers, since a transcript tells a refusal by its number (docs/REPLAY.md).
pub trait Numbered: Copy {
    fn number(self) -> u8;
}

impl Numbered for Refusal {
    fn number(self) -> u8 {
        refusal_number(self)
    }
}

impl Numbered for KeyboardRefusal {
    fn number(self) -> u8 {
        keyboard_refusal_number(self)
    }
}

impl Numbered for SealRefusal {
    fn number(self) -> u8 {
        seal_refusal_number(self)
    }
}

impl Numbered for MakeRefusal {
    fn number(self) -> u8 {
        match self {
            MakeRefusal::Store(refusal) => refusal.number(),
            MakeRefusal::Keyboards(refusal) => refusal.number(),
        }
    }
}

impl<R: Numbered> Numbered for BoardRefusal<R> {
    fn number(self) -> u8 {
        match self {
            BoardRefusal::Closed => SealRefusal::Closed.number(),
            BoardRefusal::Given(refusal) => refusal.number(),
        }
    }
}

// Crate codec has one for a `Refusal` alone: what answers vectors does not take the crates of the other refusals.
pub fn refused_line<R: Numbered>(out: &mut Output, refusal: R) {
    word_line(out, b"refused", refusal.number());
}

// The line `done`, or the refusal.
pub fn answer_line<R: Numbered>(out: &mut Output, done: &[u8], answer: Result<(), R>) {
    match answer {
        Ok(()) => text(out, done),
        Err(refusal) => refused_line(out, refusal),
    }
}

// The new id behind a word that says of what, or the refusal.
pub fn given_line<R: Numbered>(out: &mut Output, word: &[u8], given: Result<u64, R>) {
    match given {
        Ok(id) => word_line(out, word, id),
        Err(refusal) => refused_line(out, refusal),
    }
}

// What became of a value, a glide or a free.
pub fn outcome_line(out: &mut Output, outcome: Outcome) {
    word_line(out, b"outcome", outcome_number(outcome));
}

// The entries of a list, if there are any.
fn entries(out: &mut Output, list: &[u8]) {
    if !list.is_empty() {
        text(out, b" ");
        hex_bytes(out, list);
    }
    end_line(out);
}

// How many events a render took, and what became of each.
fn taken_words(out: &mut Output, outcomes: &[u8]) {
    text(out, b" took");
    and_word(out, outcomes.len());
    entries(out, outcomes);
}

pub fn rendered_line(out: &mut Output, answer: Rendered, outcomes: &[u8]) {
    match answer {
        Rendered::Sounding => text(out, b"sounding"),
        Rendered::Silent => text(out, b"silent"),
        Rendered::Unprepared(refusal) => {
            text(out, b"silent");
            and_word(out, refusal_number(refusal));
        }
        Rendered::Refused(refusal) => return refused_line(out, refusal),
    }
    taken_words(out, outcomes);
}

// The whole of a lent list.
pub fn list_line(out: &mut Output, list: &[u8]) {
    text(out, b"list");
    entries(out, list);
}

pub fn removed_line(out: &mut Output, removed: usize) {
    word_line(out, b"removed", removed);
}

pub fn level_line(out: &mut Output, level: Option<f32>) {
    word_line(out, b"level", level);
}

pub fn position_line(out: &mut Output, position: Option<u64>) {
    word_line(out, b"position", position);
}

// The length of a page, and the page.
pub fn page_lines(out: &mut Output, page: &[u8]) {
    word_line(out, b"page", page.len());
    text(out, page);
}

pub fn clock_line(out: &mut Output, clock: u64) {
    word_line(out, b"clock", clock);
}

// A byte of a remark. One that is no printable character of ASCII is `?`, so that every remark is one line. A range and no `is_ascii_graphic`,
// which leaves out the space.
fn printable(byte: u8) -> u8 {
    match byte {
        32..=126 => byte,
        _ => b'?',
    }
}

pub fn remark_line(out: &mut Output, words: &[u8]) {
    text(out, b"# ");
    for &byte in words {
        text(out, &[printable(byte)]);
    }
    end_line(out);
}
