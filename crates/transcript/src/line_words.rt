// A name as a word, with a space before it.
use codec::output::{Output, hex_bytes, text};
use node::name::{Name, is_named};

pub fn name_word(out: &mut Output, name: Name) {
    if !is_named(name) {
        text(out, b" -");
        return;
    }
    text(out, b" ");
    hex_bytes(out, name.text());
}
