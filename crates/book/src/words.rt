// What the words of a line stand for.
ghost use Rattle.std.specs.Prelude.{MatchOption, ◌<◌};

use crate::line::{Words, next_word};
use codec::field::{after, byte_at};
use node::name::{Name, name_of};
use synthdef::def::NO_PORT;

// The value of a digit. `to_digit` takes a char and gives a u32, so that both would be converted.
fn digit(b: u8) -> Option<u8>
    ensures { MatchOption result Unit (λ d. d < 10) }
{
    match b {
        b'0'..=b'9' => Some(b - b'0'),
        _ => None,
    }
}

// The number of a word of digits, up to 255. `parse` takes a sign too.
fn number_of(word: &[u8]) -> Option<u8> {
    if word.is_empty() {
        return None;
    }
    let mut value: u8 = 0;
    for b in word {
        value = value.checked_mul(10)?.checked_add(digit(*b)?)?;
    }
    Some(value)
}

// The number that stands next.
pub(crate) fn next_byte(words: &mut Words) -> Option<u8> {
    number_of(next_word(words))
}

// The number that stands behind the word `label`; `-` is no port.
pub(crate) fn labelled(words: &mut Words, label: &[u8]) -> Option<u8> {
    if next_word(words) != label {
        return None;
    }
    match next_word(words) {
        b"-" => Some(NO_PORT),
        word => number_of(word),
    }
}

// The value of a hexadecimal digit; `to_digit` takes capital letters too.
fn hex_value(b: u8) -> Option<u8>
    ensures { MatchOption result Unit (λ d. d < 16) }
{
    match b {
        b'a'..=b'f' => Some(b - b'a' + 10),
        _ => digit(b),
    }
}

// The byte of two hexadecimal digits; `%` where they are none, and no Option: every word spells some name.
fn hex_byte(high: u8, low: u8) -> u8 {
    match (hex_value(high), hex_value(low)) {
        (Some(h), Some(l)) => h * 16 + l,
        _ => b'%',
    }
}

// The name that a word spells: `%` and two hexadecimal digits are one byte, and any other byte is itself. More than 16 bytes make no name.
fn name_in(word: &[u8]) -> Name {
    let mut bytes = [0u8; 17];
    let mut at: usize = 0;
    // Not a loop over the word, since a byte is spelled by one or by three.
    for n in 0..17 {
        if word.len() <= at {
            return name_of(&bytes[..n]);
        }
        let b = byte_at(word, at);
        if b == b'%' {
            bytes[n] = hex_byte(byte_at(word, after(at, 1)), byte_at(word, after(at, 2)));
            at = after(at, 3);
        } else {
            bytes[n] = b;
            at = after(at, 1);
        }
    }
    name_of(&bytes)
}

pub(crate) fn next_name(words: &mut Words) -> Name {
    name_in(next_word(words))
}
