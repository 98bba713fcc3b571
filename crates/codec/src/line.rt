// Lines that are of one word, and the words of more than one line. Each of those has a space before it.
// Functions and no `Display`: the types are those of other crates, and a float is written as its pattern.
use crate::output::{Output, end_line, text};
use crate::word::{Word, and_word};
use node::order::{EventAction, Glide, GlideShape, GlideSpace};
use node::refusal::{Refusal, refusal_number};

// A line of what it says of, and a word.
pub fn word_line<W: Word>(out: &mut Output, of: &[u8], word: W) {
    text(out, of);
    and_word(out, word);
    end_line(out);
}

// A line of a refusal by its number. Crate transcript has one for every sort of refusal, and takes crates that the vectors have no need of.
pub fn refused_line(out: &mut Output, refusal: Refusal) {
    word_line(out, b"refused", refusal_number(refusal));
}

fn shape_words(out: &mut Output, shape: GlideShape) {
    match shape {
        GlideShape::Hold => text(out, b" hold"),
        GlideShape::Linear => text(out, b" linear"),
        GlideShape::Sine => text(out, b" sine"),
        GlideShape::Exponential(curve) => {
            text(out, b" exponential");
            and_word(out, curve);
        }
    }
}

fn space_word(out: &mut Output, space: GlideSpace) {
    match space {
        GlideSpace::Raw => text(out, b" raw"),
        GlideSpace::Pitch => text(out, b" pitch"),
    }
}

pub fn glide_words(out: &mut Output, g: Glide) {
    and_word(out, g.target);
    and_word(out, g.seconds);
    shape_words(out, g.shape);
    space_word(out, g.space);
}

// What an event does. `name` writes the parameter's name, which stands behind the sort of a value and of a glide.
pub fn action_words<F: Fn(&mut Output)>(out: &mut Output, action: EventAction, name: F)
    requires { F.IsAlwaysCallable name }
{
    match action {
        EventAction::Value(x) => {
            text(out, b" value");
            name(out);
            and_word(out, x);
        }
        EventAction::Glide(g) => {
            text(out, b" glide");
            name(out);
            glide_words(out, g);
        }
        EventAction::Gate(x) => {
            text(out, b" gate");
            and_word(out, x);
        }
        EventAction::Free => text(out, b" free"),
    }
}
