// The words of a line: numbers in decimal, and floats as their patterns in hexadecimal, every NaN the same.
ghost use Rattle.std.specs.Prelude.{◌≡◌};
ghost use Rattle.std.specs.Float.{binary32, binary64};
ghost use Rattle.codec.specs.Pattern.{pattern_of};

use crate::output::{Output, hex, text};
use node::record::{NodeId, VoiceId};

// The pattern of a float. That of an f64 is a function of its own: no trait of the library says of both formats what a pattern is.
// Crate words has this too: what is compared writes with functions of its own.
pub fn pattern(x: f32) -> u32
    ensures { result ≡ pattern_of binary32 x }
{
    if x.is_nan() {
        return 0x7fc0_0000;
    }
    x.to_bits()
}

pub fn long_pattern(x: f64) -> u64
    ensures { result ≡ pattern_of binary64 x }
{
    if x.is_nan() {
        return 0x7ff8_0000_0000_0000;
    }
    x.to_bits()
}

// What is written as one word. No `Display`: a float is written as its pattern, nothing as `-`, and both are types of the library.
pub trait Word: Copy {
    fn put(self, out: &mut Output);
}

impl Word for u64 {
    fn put(self, out: &mut Output) {
        let mut digits = [0u8; 20];
        let k = io::decimal(self, &mut digits);
        text(out, &digits[..k]);
    }
}

impl Word for u32 {
    fn put(self, out: &mut Output) {
        u64::from(self).put(out);
    }
}

impl Word for u8 {
    fn put(self, out: &mut Output) {
        u64::from(self).put(out);
    }
}

impl Word for usize {
    fn put(self, out: &mut Output) {
        (self as u64).put(out);
    }
}

impl Word for i32 {
    fn put(self, out: &mut Output) {
        if self < 0 {
            text(out, b"-");
        }
        self.unsigned_abs().put(out);
    }
}

impl Word for f32 {
    fn put(self, out: &mut Output) {
        hex(out, u64::from(pattern(self)), 8);
    }
}

impl Word for f64 {
    fn put(self, out: &mut Output) {
        hex(out, long_pattern(self), 16);
    }
}

impl Word for NodeId {
    fn put(self, out: &mut Output) {
        self.0.put(out);
    }
}

impl Word for VoiceId {
    fn put(self, out: &mut Output) {
        self.0.put(out);
    }
}

// `-` where there is none.
impl<W: Word> Word for Option<W> {
    fn put(self, out: &mut Output) {
        match self {
            Some(word) => word.put(out),
            None => text(out, b"-"),
        }
    }
}

// A space, and then the word.
pub fn and_word<W: Word>(out: &mut Output, word: W) {
    text(out, b" ");
    word.put(out);
}

pub fn and_words<W: Word>(out: &mut Output, words: &[W]) {
    for word in words {
        and_word(out, *word);
    }
}

// An edge: the nodes that it goes from and to, and the port that it feeds. The three and no edge, since there are two types of one: a definition's
// (`DefEdge`) and a graph's (`Edge`).
pub fn edge_words<N: Word, P: Word>(out: &mut Output, from: N, to: N, port: P) {
    and_word(out, from);
    and_word(out, to);
    and_word(out, port);
}
