// Bytes that are copied.
ghost use Rattle.std.specs.Prelude.{◌≡◌, ◌≤◌, length};
ghost use Rattle.lists.specs.Written.{written};

// Puts `text` at the front of `out`, which has room for it, and says how many bytes that were.
pub fn copy(text: &[u8], out: &mut [u8]) -> usize
    requires { length text.now ≤ length out.old }
    ensures long { result ≡ length text.now }
    ensures placed { out.new ≡ written text.now out.old }
{
    out[..text.len()].copy_from_slice(text);
    text.len()
}
