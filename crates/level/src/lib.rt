// The level of a block of samples: the root of the mean of their squares, each step rounded as IEEE 754 says.
// Sums, products and quotients are the machine's f64 steps. The scope asks that the root and the narrowing to f32 are worked out here, from bits over
// whole numbers, so that they are not the library's `f64::sqrt` and `nearest_f64_to_f32`.
#![tactic(auto)]

ghost use Rattle.std.specs.Prelude.{◌≡◌, Bool, cond, ℕ, ◌+◌, ◌*◌, ◌^◌, ◌<◌, ◌≤◌, pos};
ghost use Rattle.std.specs.Float.{binary32, binary64};
ghost use Rattle.std.specs.Float.Ieee.{of_bits};
ghost use Rattle.std.specs.Float.Ieee.Nearest.{closest};
ghost use Rattle.level.specs.Root as spec;
ghost use Rattle.level.specs.Narrow as thin;
ghost use Rattle.level.specs.Level.{plus_zero, squares, level_of};
ghost use Rattle.level.specs.Digits.{Rooted};

use std::num::nearest_usize_to_f64;

// The weight of the exponent's field of an f64, the weight of its sign, and the bits of its infinity.
const FIELD64: u64 = 0x10_0000_0000_0000;

const SIGN64: u64 = 0x8000_0000_0000_0000;

const INFINITY64: u64 = 0x7ff0_0000_0000_0000;

// The same of an f32.
const FIELD32: u64 = 0x80_0000;

const SIGN32: u64 = 0x8000_0000;

const INFINITY32: u64 = 0x7f80_0000;

// m / u to the nearest whole number, at a tie the even one. The library has no such quotient.
fn nearest(m: u64, u: u64) -> u64
    requires { (m < 2 ^ 63) × (0 < u) }
    ensures { result ≡ closest m u }
{
    let q = m / u;
    let r = m % u;
    let h = u - r;
    if r < h {
        return q;
    }
    if h < r {
        return q + 1;
    }
    q + q % 2
}

// The bits of the nearest f32, from those of an f64, both without the sign. An f64 whose field x is 897 or more is at least 2 ^ -126, so the f32 has its
// leading digit too, and 29 digits go. Below that an f32 has fewer digits: 926 - x go, so many from x = 872 down that nothing is left.
fn narrow_bits(a: u64) -> u64
    requires { a ≤ 0x7ff0_0000_0000_0000 }
    ensures { (result ≤ 0x7f80_0000) × ((s : Bool) → of_bits binary32 (cond s (2 ^ 31) 0 + result) ≡ thin.narrow (of_bits binary64 (cond s (2 ^ 63) 0 + a))) }
{
    let x = a / FIELD64;
    if x == 2047 {
        return INFINITY32;
    }
    if x < 873 {
        return 0;
    }
    let m = FIELD64 + a % FIELD64;
    if x < 897 {
        return nearest(m, 1 << (926 - x));
    }
    ((x - 897) * FIELD32 + nearest(m, 0x2000_0000)).min(INFINITY32)
}

// The nearest f32 to an f64, at a tie the even one.
pub fn narrow(x: f64) -> f32
    ensures { result ≡ thin.narrow x }
{
    if x.is_nan() {
        return f32::NAN;
    }
    let b = f64::to_bits(x);
    if b < SIGN64 {
        return f32::from_bits(narrow_bits(b) as u32);
    }
    f32::from_bits((SIGN32 + narrow_bits(b - SIGN64)) as u32)
}

#[derive(Clone, Copy)]
struct Digits {
    root: u64,
    rest: u64,
    turns: u64,
}

// The square root of a, one binary digit a turn, until it has 53 of them; how many turns that takes is an answer, so that no range counts them.
// Each turn takes the two leading digits of what is left of a.
fn root_digits(a: u64) -> Digits
    requires { 0 < a }
    ensures { Rooted a result.root result.rest result.turns }
{
    let mut m = a;
    let mut root: u64 = 0;
    let mut rest: u64 = 0;
    let mut turns: u64 = 0;
    while root < FIELD64 {
        let v = rest * 4 + m / 0x4000_0000_0000_0000;
        let t = root * 4 + 1;
        m = m % 0x4000_0000_0000_0000 * 4;
        turns += 1;
        if v < t {
            rest = v;
            root = root * 2;
        } else {
            rest = v - t;
            root = root * 2 + 1;
        }
    }
    Digits { root, rest, turns }
}

// The bits of the square root of m * 2 ^ e of the smallest f64, 2 ^ -1074. In these units it is the root of m * 2 ^ (e + 1074), which is a * 4 ^ (e / 2 + 532)
// for the a below. After the 32 turns that use up a the digits weigh 2 ^ (e / 2 + 532), and each turn halves that. They go up by one where their square
// leaves more than they are: (root + 1/2) ^ 2 is root ^ 2 + root + 1/4.
fn root_bits(m: u64, e: u64) -> u64
    requires { (0 < m) × (m < 2 ^ 53) × (e < 2046) }
    ensures { (result < 0x7ff0_0000_0000_0000) × (of_bits binary64 result ≡ spec.root_of (m * 2 ^ e)) }
{
    let a = m * 1024 * (1 + e % 2);
    let d = root_digits(a);
    let k = e / 2 + 564 - d.turns;
    if d.root < d.rest {
        return k * FIELD64 + (d.root + 1);
    }
    k * FIELD64 + d.root
}

// The bits of the square root, from those of an f64 above 0.
fn sqrt_bits(b: u64) -> u64
    requires { (0 < b) × (b < 0x7ff0_0000_0000_0000) }
    ensures { (result < 0x7ff0_0000_0000_0000) × (of_bits binary64 result ≡ spec.sqrt (of_bits binary64 b)) }
{
    let x = b / FIELD64;
    let t = b % FIELD64;
    if x == 0 {
        return root_bits(t, 0);
    }
    root_bits(FIELD64 + t, x - 1)
}

// The nearest f64 to the square root: of -0 it is -0, and below that a NaN.
pub fn sqrt(x: f64) -> f64
    ensures { result ≡ spec.sqrt x }
{
    if x.is_nan() {
        return f64::NAN;
    }
    let b = f64::to_bits(x);
    if b == 0 {
        return x;
    }
    if b < INFINITY64 {
        return f64::from_bits(sqrt_bits(b));
    }
    if b == INFINITY64 || b == SIGN64 {
        return x;
    }
    f64::NAN
}

fn sum_of_squares(samples: &[f32]) -> f64
    ensures { result ≡ squares plus_zero samples.now }
{
    let mut sum: f64 = 0.0;
    for sample in samples {
        let x = f64::from(*sample);
        sum += x * x;
    }
    sum
}

// The root of the mean of the squares. Of no samples it is a NaN, 0 / 0.
pub fn level(samples: &[f32]) -> f32
    ensures { result ≡ level_of samples.now }
{
    narrow(sqrt(sum_of_squares(samples) / nearest_usize_to_f64(samples.len())))
}
