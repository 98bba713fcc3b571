// Fields of a lent input, little-endian; each reader is given the input and the position, as its definition is.
// A byte past the input's end is 0, so that every field can be asked for; whether the input
// was long enough is seen by the position after its last field.
ghost use Rattle.std.specs.Prelude.{◌≡◌, ℕ, ◌≤◌, ◌<◌, length, pos, ◌-ℤ◌, Some};
ghost use Rattle.std.specs.Float.{binary32, binary64};
ghost use Rattle.std.specs.Float.Ieee.{of_bits};
ghost use Rattle.codec.specs.Field.{moved, little, run, fields};
ghost use Rattle.codec.specs.Calls.{Played};

// The last position of all, which no input reaches. It is where a malformed field ends: one that runs past the input's end is malformed too,
// so that one test finds both, which of an `Option` would be two.
pub const NOWHERE: usize = usize::MAX;

// The position n bytes after `at`. It stops at the last position of all. A function beside the library's method, since the definitions of
// every format say `moved`.
pub fn after(at: usize, n: usize) -> usize
    ensures { result ≡ moved at n }
{
    at.saturating_add(n)
}

// The fields of two, four and eight bytes are each two of the half: for `from_le_bytes` an array would be filled first, byte by byte, since past
// the input's end a byte is 0.
// Each gives another type: one function over a trait of the three would be longer.
// Those of one and of two bytes stand in crate book_bytes too: what is compared reads with functions of its own.

pub fn byte_at(s: &[u8], at: usize) -> u8
    ensures { result ≡ little 1 s.now at }
{
    s.get(at).copied().unwrap_or(0)
}

pub fn pair_at(s: &[u8], at: usize) -> u16
    ensures { result ≡ little 2 s.now at }
{
    u16::from(byte_at(s, at)) + u16::from(byte_at(s, after(at, 1))) * 0x100
}

pub fn word_at(s: &[u8], at: usize) -> u32
    ensures { result ≡ little 4 s.now at }
{
    u32::from(pair_at(s, at)) + u32::from(pair_at(s, after(at, 2))) * 0x1_0000
}

pub fn long_at(s: &[u8], at: usize) -> u64
    ensures { result ≡ little 8 s.now at }
{
    u64::from(word_at(s, at)) + u64::from(word_at(s, after(at, 4))) * 0x1_0000_0000
}

// The `len` bytes from `at` on, or none where the input ends before. No `Option` for that, as for a byte past the end: whether the input was long
// enough is seen by the position after its last field.
pub fn bytes_at(s: &[u8], at: usize, len: usize) -> &[u8]
    ensures { result.now ≡ run s.now at len }
{
    s.get(at..after(at, len)).unwrap_or(&[])
}

// The float of a pattern. Every pattern of a NaN is the same one, and found by hand: `from_bits` takes none.
// Crate words has this too: what is compared reads with functions of its own.
// Its twin for 64 bits is a function of its own, since no trait of the library says of both formats what a pattern is.
pub fn float(bits: u32) -> f32
    ensures { result ≡ of_bits binary32 bits }
{
    if bits % 0x8000_0000 > 0x7f80_0000 {
        return f32::NAN;
    }
    f32::from_bits(bits)
}

pub fn double(bits: u64) -> f64
    ensures { result ≡ of_bits binary64 bits }
{
    if bits % 0x8000_0000_0000_0000 > 0x7ff0_0000_0000_0000 {
        return f64::NAN;
    }
    f64::from_bits(bits)
}

// What a field of four bytes stands for. No `From<u32>`: that and the types are all the library's.
pub trait Field: Copy {
    ghost value: { ℕ → Self };

    fn of(word: u32) -> Self
        ensures { result ≡ value word };
}

impl Field for f32 {
    ghost value = { of_bits binary32 };

    fn of(word: u32) -> f32 {
        float(word)
    }
}

impl Field for usize {
    ghost value = { λ n. n };

    fn of(word: u32) -> usize {
        word as usize
    }
}

impl Field for u32 {
    ghost value = { λ n. n };

    fn of(word: u32) -> u32 {
        word
    }
}

// A number with a sign stands as 2^31 more than it is (docs/VECTORS.md). The sum never saturates: with the largest word it is the largest `i32`.
impl Field for i32 {
    ghost value = { λ n. pos n -ℤ pos 2147483648 };

    fn of(word: u32) -> i32 {
        i32::MIN.saturating_add_unsigned(word)
    }
}

// Fills `out` with the fields of four bytes that stand from `at` on. The position goes on by `after`, as that of the definition does: by
// `enumerate` it would be a product, which has to fit.
pub fn fields_at<T: Field>(s: &[u8], at: usize, out: &mut [T])
    ensures { out.new ≡ fields T.value (length out.old) s.now at }
{
    let mut from = at;
    for x in out.iter_mut() {
        *x = T::of(word_at(s, from));
        from = after(from, 4);
    }
}

// Where a run of lent numbers stands: how many, the first of them, and the end. It holds no number: whoever reads them has fixed memory of the
// type that they are read as.
#[derive(Clone, Copy)]
pub struct Lent {
    pub count: usize,
    pub from: usize,
    pub end: usize,
}

// A count, and that many fields of four bytes. A count of more than 2,048 has its end past the input.
pub fn lent_at(s: &[u8], at: usize) -> Lent
    ensures { result.count ≤ 2048 }
{
    let count = word_at(s, at) as usize;
    let from = after(at, 4);
    if count > 2048 {
        return Lent {
            count: 0,
            from,
            end: NOWHERE,
        };
    }
    Lent {
        count,
        from,
        end: after(from, 4 * count),
    }
}

// Plays as many calls as the field at `at` says, each from where the one before it ends. The end of the last, or none where one ends past the input,
// and then it is the last that is played.
// A public `requires`, since a call of a closure needs it; a trait of what plays one call, with an impl for each caller, would be longer.
pub fn calls<F: FnMut(usize) -> usize>(s: &[u8], at: usize, mut play: F) -> Option<usize>
    requires { F.IsAlwaysCallable play }
    ensures none { little 4 s.now at ≡ 0 → result ≡ Some (moved at 4) }
    ensures end { 0 < little 4 s.now at → (e : ℕ) → result ≡ Some e → e ≤ length s.now }
    ensures played { Played F.step (length s.now) (little 4 s.now at) play (moved at 4) result }
{
    let mut from = after(at, 4);
    for _ in 0..word_at(s, at) {
        from = play(from);
        if s.len() < from {
            return None;
        }
    }
    Some(from)
}

// Room for a whole input. The `ensures` gives the length, which lending a part asks for. With the array in the caller, tried in `main` of vectors,
// the check did not end in 300 s.
pub fn input_room() -> [u8; 786432]
    ensures { 786432 ≡ length result }
{
    [0; 786432]
}
