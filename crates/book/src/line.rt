// The words of a line.

// The words that are still to be read. No `split` and `filter` of the library: of their type, with a closure each, every reader of a line would have
// to be generic.
#[derive(Clone, Copy)]
pub(crate) struct Words<'a> {
    rest: &'a [u8],
}

pub(crate) fn words_of(line: &[u8]) -> Words {
    Words { rest: line }
}

// The word that stands next; it has no bytes where the line ends, and is no Option: `take_line` matches an empty line as it does the other words.
pub(crate) fn next_word<'a>(words: &mut Words<'a>) -> &'a [u8] {
    let rest = words.rest;
    let from = rest.iter().position(|b| *b != b' ').unwrap_or(rest.len());
    let word = &rest[from..];
    let end = word.iter().position(|b| *b == b' ').unwrap_or(word.len());
    words.rest = &word[end..];
    &word[..end]
}
