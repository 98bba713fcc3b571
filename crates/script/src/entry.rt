// Where an entry ends.
ghost use Rattle.std.specs.Prelude.{◌≡◌};
ghost use Rattle.script.specs.Def.{def_end};
ghost use Rattle.script.specs.Entry.{form_of, form_end, within, samples_of, entry_end};

use crate::def::def_at;
use crate::name::name_end;
use codec::field::{NOWHERE, after, byte_at, word_at};

// How the fields of an entry stand. `Malformed` is a case and no option: its end lies past the script, as that of a cut entry does, so that one
// test finds both.
#[derive(Clone, Copy)]
enum Form {
    // There is no such entry.
    Malformed,
    // So many bytes.
    Fixed(usize),
    // So many bytes, a name, and so many bytes.
    Named { before: usize, behind: usize },
    // A slot, and a definition.
    Definition,
    // A report, with its samples.
    Samples,
    // A report, with one sample.
    Repeated,
    // The length of a buffer.
    Buffer,
}

// By rising sort, from 0 on: docs/REPLAY.md numbers the entries.
const FORMS: [Form; 54] = [
    Form::Malformed,
    Form::Fixed(15),
    Form::Fixed(28),
    Form::Named {
        before: 0,
        behind: 14,
    },
    Form::Fixed(4),
    Form::Fixed(12),
    Form::Fixed(8),
    Form::Fixed(4),
    Form::Definition,
    Form::Fixed(13),
    Form::Fixed(13),
    Form::Fixed(9),
    Form::Fixed(9),
    Form::Fixed(8),
    Form::Fixed(0),
    Form::Named {
        before: 8,
        behind: 4,
    },
    Form::Named {
        before: 8,
        behind: 14,
    },
    Form::Named {
        before: 17,
        behind: 14,
    },
    Form::Samples,
    Form::Repeated,
    Form::Fixed(0),
    Form::Fixed(0),
    Form::Fixed(8),
    Form::Fixed(8),
    Form::Fixed(8),
    Form::Fixed(4),
    Form::Fixed(0),
    Form::Fixed(0),
    Form::Fixed(0),
    Form::Fixed(0),
    Form::Fixed(4),
    Form::Fixed(0),
    Form::Buffer,
    Form::Fixed(0),
    Form::Fixed(15),
    Form::Fixed(5),
    Form::Malformed,
    Form::Malformed,
    Form::Malformed,
    Form::Malformed,
    Form::Malformed,
    Form::Malformed,
    Form::Malformed,
    Form::Malformed,
    Form::Malformed,
    Form::Malformed,
    Form::Malformed,
    Form::Fixed(20),
    Form::Fixed(18),
    Form::Fixed(0),
    Form::Fixed(0),
    Form::Malformed,
    Form::Fixed(44),
    Form::Named {
        before: 0,
        behind: 0,
    },
];

fn form_of(sort: u8) -> Form
    ensures { result ≡ form_of sort }
{
    FORMS
        .get(usize::from(sort))
        .copied()
        .unwrap_or(Form::Malformed)
}

// The end of an entry that may count n of something; of one that counts too much, the position past every script.
fn within(most: u32, n: u32, end: usize) -> usize
    ensures { result ≡ within most n end }
{
    if n <= most { end } else { NOWHERE }
}

// The samples that a report counts.
fn samples_of(s: &[u8], from: usize) -> u32
    ensures { result ≡ samples_of s.now from }
{
    word_at(s, after(from, 6))
}

fn def_end(s: &[u8], at: usize) -> usize
    ensures { result ≡ def_end s.now at }
{
    def_at(s, at).end
}

// The position after the fields that start at `from`.
fn form_end(form: Form, s: &[u8], from: usize) -> usize
    ensures { result ≡ form_end form s.now from }
{
    match form {
        Form::Malformed => NOWHERE,
        Form::Fixed(n) => after(from, n),
        Form::Named { before, behind } => after(name_end(s, after(from, before)), behind),
        Form::Definition => def_end(s, after(from, 1)),
        Form::Samples => {
            let n = samples_of(s, from);
            within(512, n, after(from, 10 + 4 * n as usize))
        }
        Form::Repeated => within(512, samples_of(s, from), after(from, 14)),
        Form::Buffer => within(4096, word_at(s, from), after(from, 4)),
    }
}

// The position after the entry at `at`. One that is malformed, or that the script ends in, has its end past the script.
pub fn entry_end(s: &[u8], at: usize) -> usize
    ensures { result ≡ entry_end s.now at }
{
    form_end(form_of(byte_at(s, at)), s, after(at, 1))
}
