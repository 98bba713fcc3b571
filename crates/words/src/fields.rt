// The fields of a record in words, and back. Word by word and byte by byte, since the list is the layout. Each way is a function of its own,
// also where it is one step: its clause is what the records' clauses cite. What reads several words has a parameter for each, as its definition has:
// of an array the clause would name each word by its place.
//
// The words of lent memory hold numbers, so that each kind has one. The numbers of a kind stand in two functions, one for each way.
ghost use Rattle.std.specs.Prelude.{◌≡◌, ◌/◌, ◌%◌, [], ◌∷◌, ◌++◌, get_or};
ghost use Rattle.words.specs.Fields.{long_from, is_set, float_from, four, name_from, shape_from, space_from, glide_from, last_from, Glides, long_at, name_at, last_at};
ghost use Rattle.words.specs.Rows.{row_at};

use crate::table::word_at;
use node::name::Name;
use node::order::{Glide, GlideShape, GlideSpace, LastOrder};

// `as` takes no number that does not fit, so that the low part of one is a remainder, here and in `low_byte`. A number of 64 bits is taken apart and put
// together by hand: the library does it by eight bytes, and not by two words.
pub fn low_word(x: u64) -> u32
    ensures { result ≡ x % 4294967296 }
{
    (x % 4294967296) as u32
}

pub fn high_word(x: u64) -> u32
    ensures { result ≡ x / 4294967296 }
{
    (x / 4294967296) as u32
}

pub fn long_from(low: u32, high: u32) -> u64
    ensures { result ≡ long_from low high }
{
    u64::from(low) + u64::from(high) * 4294967296
}

pub fn flag_word(b: bool) -> u32
    ensures { is_set result ≡ b }
{
    u32::from(b)
}

pub fn is_set(x: u32) -> bool
    ensures { result ≡ is_set x }
{
    x != 0
}

// A NaN has one pattern here, whichever it had: the bits of a NaN cannot be read. Crate codec has this too: what is compared writes with functions of
// its own.
pub fn float_word(x: f32) -> u32
    ensures { float_from result ≡ x }
{
    if x.is_nan() { 0x7fc0_0000 } else { x.to_bits() }
}

pub fn float_from(x: u32) -> f32
    ensures { result ≡ float_from x }
{
    if 0x7f80_0000 < x % 0x8000_0000 {
        return f32::NAN;
    }
    f32::from_bits(x)
}

// Four bytes in a word, the low one first.
pub fn byte_word(a: u8, b: u8, c: u8, d: u8) -> u32
    ensures { four result ≡ a ∷ b ∷ c ∷ d ∷ [] }
{
    u32::from_le_bytes([a, b, c, d])
}

// A name in five words.
pub fn name_words(n: Name) -> [u32; 5]
    ensures { name_from (get_or result 0 0) (get_or result 1 0) (get_or result 2 0) (get_or result 3 0) (get_or result 4 0) ≡ n }
{
    let b = n.bytes;
    [
        byte_word(b[0], b[1], b[2], b[3]),
        byte_word(b[4], b[5], b[6], b[7]),
        byte_word(b[8], b[9], b[10], b[11]),
        byte_word(b[12], b[13], b[14], b[15]),
        u32::from(n.len),
    ]
}

// The low byte of a word.
pub fn low_byte(x: u32) -> u8
    ensures { result ≡ x % 256 }
{
    (x % 256) as u8
}

// Eight bytes of two words.
pub fn eight_bytes(a: u32, b: u32) -> [u8; 8]
    ensures { result ≡ four a ++ four b }
{
    long_from(a, b).to_le_bytes()
}

pub fn name_from(a: u32, b: u32, c: u32, d: u32, len: u32) -> Name
    ensures { result ≡ name_from a b c d len }
{
    let x = eight_bytes(a, b);
    let y = eight_bytes(c, d);
    let bytes = [
        x[0], x[1], x[2], x[3], x[4], x[5], x[6], x[7], y[0], y[1], y[2], y[3], y[4], y[5], y[6],
        y[7],
    ];
    Name {
        bytes,
        len: low_byte(len),
    }
}

// A glide's shape in two words, its space in one.
fn shape_words(s: GlideShape) -> [u32; 2]
    ensures { shape_from (get_or result 0 0) (get_or result 1 0) ≡ s }
{
    match s {
        GlideShape::Hold => [0, 0],
        GlideShape::Linear => [1, 0],
        GlideShape::Sine => [2, 0],
        GlideShape::Exponential(x) => [3, float_word(x)],
    }
}

fn shape_from(which: u32, x: u32) -> GlideShape
    ensures { result ≡ shape_from which x }
{
    match which {
        1 => GlideShape::Linear,
        2 => GlideShape::Sine,
        3 => GlideShape::Exponential(float_from(x)),
        _ => GlideShape::Hold,
    }
}

fn space_word(s: GlideSpace) -> u32
    ensures { space_from result ≡ s }
{
    match s {
        GlideSpace::Raw => 0,
        GlideSpace::Pitch => 1,
    }
}

fn space_from(which: u32) -> GlideSpace
    ensures { result ≡ space_from which }
{
    match which {
        1 => GlideSpace::Pitch,
        _ => GlideSpace::Raw,
    }
}

// An order that is a glide in six words, the first of them 2.
pub fn glide_words(g: Glide) -> [u32; 6]
    ensures { Glides g result }
{
    let s = shape_words(g.shape);
    [
        2,
        float_word(g.target),
        float_word(g.seconds),
        s[0],
        s[1],
        space_word(g.space),
    ]
}

pub fn glide_from(target: u32, seconds: u32, shape: u32, e: u32, space: u32) -> Glide
    ensures { result ≡ glide_from target seconds shape e space }
{
    Glide {
        target: float_from(target),
        seconds: float_from(seconds),
        shape: shape_from(shape, e),
        space: space_from(space),
    }
}

// A node's newest order in six words.
pub fn last_words(l: LastOrder) -> [u32; 6]
    ensures { last_from (get_or result 0 0) (get_or result 1 0) (get_or result 2 0) (get_or result 3 0) (get_or result 4 0) (get_or result 5 0) ≡ l }
{
    match l {
        LastOrder::Nothing => [0, 0, 0, 0, 0, 0],
        LastOrder::Value(x) => [1, float_word(x), 0, 0, 0, 0],
        LastOrder::Glide(g) => glide_words(g),
    }
}

pub fn last_from(which: u32, x: u32, seconds: u32, shape: u32, e: u32, space: u32) -> LastOrder
    ensures { result ≡ last_from which x seconds shape e space }
{
    match which {
        1 => LastOrder::Value(float_from(x)),
        2 => LastOrder::Glide(glide_from(x, seconds, shape, e, space)),
        _ => LastOrder::Nothing,
    }
}

// The fields of row `i`, of rows of `w` words, from word `k` on; past the end every word is 0. A function for each sort of field: over a trait there
// would be an impl with a law for each, and a call would be no shorter.
pub fn long_at(t: &[u32], w: usize, i: usize, k: u16) -> u64
    ensures { result ≡ long_at (row_at w i t.now) k }
{
    let j = usize::from(k);
    long_from(word_at(t, w, i, j), word_at(t, w, i, j + 1))
}

pub fn flag_at(t: &[u32], w: usize, i: usize, k: u16) -> bool
    ensures { result ≡ is_set (get_or (row_at w i t.now) k 0) }
{
    is_set(word_at(t, w, i, usize::from(k)))
}

pub fn float_at(t: &[u32], w: usize, i: usize, k: u16) -> f32
    ensures { result ≡ float_from (get_or (row_at w i t.now) k 0) }
{
    float_from(word_at(t, w, i, usize::from(k)))
}

pub fn name_at(t: &[u32], w: usize, i: usize, k: u16) -> Name
    ensures { result ≡ name_at (row_at w i t.now) k }
{
    let j = usize::from(k);
    let a = word_at(t, w, i, j);
    let b = word_at(t, w, i, j + 1);
    let c = word_at(t, w, i, j + 2);
    let d = word_at(t, w, i, j + 3);
    name_from(a, b, c, d, word_at(t, w, i, j + 4))
}

pub fn last_at(t: &[u32], w: usize, i: usize, k: u16) -> LastOrder
    ensures { result ≡ last_at (row_at w i t.now) k }
{
    let j = usize::from(k);
    let which = word_at(t, w, i, j);
    let x = word_at(t, w, i, j + 1);
    let seconds = word_at(t, w, i, j + 2);
    let shape = word_at(t, w, i, j + 3);
    let e = word_at(t, w, i, j + 4);
    last_from(which, x, seconds, shape, e, word_at(t, w, i, j + 5))
}
