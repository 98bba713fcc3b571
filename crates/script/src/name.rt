// A name: how many bytes, and the bytes.
ghost use Rattle.std.specs.Prelude.{◌≡◌};
ghost use Rattle.script.specs.Name.{name_at, name_end};

use codec::field::{after, byte_at, bytes_at};

// The bytes of the name at `at`.
pub fn name_at(s: &[u8], at: usize) -> &[u8]
    ensures { result.now ≡ name_at s.now at }
{
    bytes_at(s, after(at, 1), usize::from(byte_at(s, at)))
}

// The position after the name at `at`.
pub fn name_end(s: &[u8], at: usize) -> usize
    ensures { result ≡ name_end s.now at }
{
    after(after(at, 1), usize::from(byte_at(s, at)))
}
