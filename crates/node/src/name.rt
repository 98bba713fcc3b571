ghost use Rattle.std.specs.Prelude.{◌≡◌};
ghost use Rattle.node.specs.Name.{name_length, named, name_of, same_name, text};

// A byte string of 1 to 16 bytes: the first `len` of `bytes`. With any other `len` it is a name that equals none, itself
// included. An array and a count, since the store has no heap; and no `Table` of lists: its count is a byte, as lent words and books hold it.
#[derive(Clone, Copy, Default)]
pub struct Name {
    pub bytes: [u8; 16],
    pub len: u8,
}

impl Name {
    // The bytes of the name: no more than there are, whatever `len` says.
    pub fn text(&self) -> &[u8]
        ensures { result.now ≡ text self.now }
    {
        &self.bytes[..usize::from(self.len).min(16)]
    }
}

// Whether a name may have `n` bytes.
pub fn name_length(n: usize) -> bool
    ensures { result ≡ name_length n }
{
    (1..=16).contains(&n)
}

// Whether `n` is a name of 1 to 16 bytes. `name_length` is asked of a text too, which is no name yet.
pub fn is_named(n: Name) -> bool
    ensures { result ≡ named n }
{
    name_length(usize::from(n.len))
}

// The name that stands for `text`, or one that equals none where `text` has not 1 to 16 bytes. No `Option`: a name that equals none is
// refused and looked for like any other.
pub fn name_of(text: &[u8]) -> Name
    ensures { result ≡ name_of text.now }
{
    let n = text.len();
    let mut bytes = [0u8; 16];
    if !name_length(n) {
        return Name { bytes, len: 0 };
    }
    bytes[..n].copy_from_slice(text);
    Name {
        bytes,
        len: n as u8,
    }
}

// Whether `a` and `b` are both names of 1 to 16 bytes and stand for the same byte string. A derived `==` would say that a name of a
// wrong length equals itself.
pub fn same_name(a: Name, b: Name) -> bool
    ensures { result ≡ same_name a b }
{
    if !is_named(a) || !is_named(b) {
        return false;
    }
    a.text() == b.text()
}
