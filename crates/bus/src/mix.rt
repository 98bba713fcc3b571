// Fades and sums of lent blocks in any sort of numbers: one code for samples that are floats and samples that are whole numbers.
ghost use Rattle.std.specs.Prelude.{◌≡◌, ℕ, List, Bool, true, ◌&&◌, ◌*◌, ◌≤◌, T, length, slice_index_or};
ghost use Rattle.std.specs.Float.{binary32, nan};
ghost use Rattle.std.specs.Float.Ieee.{add, mul};
ghost use Rattle.bus.specs.Answer.{answered, left};
ghost use Rattle.bus.specs.Block.{each, block_of};
ghost use Rattle.bus.specs.Fade.{silence, faded_of_by, fade_fits, Multiply};
ghost use Rattle.bus.specs.Sum.{channels, every_is_channels, summed_by, sum_fits};

use crate::{FadePart, fade_fits, sum_fits};
use node::refusal::Refusal;

// A sort of numbers: what samples and gains are, which of them are in range, and how they are multiplied and added.
pub trait Numbers {
    type Sample: Copy;

    type Gain: Copy;

    // What the definitions have past a block's end.
    ghost past: { Self.Sample };

    ghost silence: { Self.Sample };

    ghost no_gain: { Self.Gain };

    ghost times: { Self.Sample → Self.Gain → Self.Sample };

    ghost plus: { Self.Sample → Self.Sample → Self.Sample };

    // Which may be multiplied.
    ghost Multiplies: { Self.Sample → Self.Gain → Type 0 };

    // Whether all are in range.
    ghost are_samples: { List Self.Sample → Bool };

    ghost are_gains: { List Self.Gain → Bool };

    ghost in_range: { (xs : List Self.Sample) (gains : List Self.Gain) → T (are_samples xs) → T (are_gains gains) → Multiply Multiplies past no_gain xs gains };

    fn silence() -> Self::Sample
        ensures { result ≡ silence };

    fn no_gain() -> Self::Gain
        ensures { result ≡ no_gain };

    fn times(x: Self::Sample, gain: Self::Gain) -> Self::Sample
        requires { Multiplies x gain }
        ensures { result ≡ times x gain };

    fn plus(x: Self::Sample, y: Self::Sample) -> Self::Sample
        ensures { result ≡ plus x y };

    fn every_sample(xs: &[Self::Sample]) -> bool
        ensures { result ≡ are_samples xs.now };

    fn every_gain(gains: &[Self::Gain]) -> bool
        ensures { result ≡ are_gains gains.now };
}

// Floats, all of which are in range, and whose products and sums are rounded once each.
pub struct Floats;

impl Numbers for Floats {
    type Sample = f32;

    type Gain = f32;

    ghost past = { nan };

    ghost silence = { silence };

    ghost no_gain = { silence };

    ghost times = { mul binary32 };

    ghost plus = { add binary32 };

    ghost Multiplies = { λ x g. Unit {0} };

    ghost are_samples = { λ xs. true };

    ghost are_gains = { λ gains. true };

    ghost in_range = { λ xs gains t u i j. tt };

    fn silence() -> f32 {
        0.0
    }

    fn no_gain() -> f32 {
        Self::silence()
    }

    fn times(x: f32, gain: f32) -> f32 {
        x * gain
    }

    fn plus(x: f32, y: f32) -> f32 {
        x + y
    }

    fn every_sample(_: &[f32]) -> bool {
        true
    }

    fn every_gain(_: &[f32]) -> bool {
        true
    }
}

// The three loops over two slices ask that both have as many samples, and so does what calls them. `out.iter_mut().zip(source)` would not, but after a
// loop over it nothing is known of `out` (tried: `returns` stays open).

// Samples under a gain each.
fn fade_held<N: Numbers>(source: &[N::Sample], gains: &[N::Gain], out: &mut [N::Sample])
    requires { (length source.now ≡ length out.old) × (length out.old ≤ length gains.now) × Multiply N.Multiplies N.past N.no_gain source.now gains.now }
    ensures { out.new ≡ each (length out.old) (λ i. N.times (slice_index_or source.now i N.past) (slice_index_or gains.now i N.no_gain)) }
{
    for (i, y) in out.iter_mut().enumerate() {
        *y = N::times(source[i], gains[i]);
    }
}

// Samples that have no gain, which need not give silence: a float's NaN stays.
fn fade_out<N: Numbers>(source: &[N::Sample], out: &mut [N::Sample])
    requires { (length source.now ≡ length out.old) × ((i : ℕ) → N.Multiplies (slice_index_or source.now i N.past) N.no_gain) }
    ensures { out.new ≡ each (length out.old) (λ i. N.times (slice_index_or source.now i N.past) N.no_gain) }
{
    for (i, y) in out.iter_mut().enumerate() {
        *y = N::times(source[i], N::no_gain());
    }
}

// The samples that the gains reach, and those after them: two loops, so that none asks at each sample whether there is a gain, which took too long
// (docs/CHANGES.md, "Mixing in whole numbers").
fn fade_channel<N: Numbers>(source: &[N::Sample], gains: &[N::Gain], out: &mut [N::Sample])
    requires { (length source.now ≡ length out.old) × Multiply N.Multiplies N.past N.no_gain source.now gains.now }
    ensures { out.new ≡ each (length out.old) (λ i. N.times (slice_index_or source.now i N.past) (slice_index_or gains.now i N.no_gain)) }
{
    let n = gains.len().min(out.len());
    let (held, after) = source.split_at(n);
    let (front, back) = out.split_at_mut(n);
    fade_held::<N>(held, gains, front);
    fade_out::<N>(after, back);
}

// Channels are cut out by their place, here and in a sum: a block may have no samples, which `chunks_exact_mut` does not take.

// A fade's output for one block of size samples. Channel c of the output is channel c modulo the input's count, faded: there are one or two of each, so that a
// second channel reads the input's last.
pub fn fade<N: Numbers>(
    input: &[N::Sample],
    gains: &[N::Gain],
    len: u32,
    size: usize,
    p: FadePart,
    out: &mut [N::Sample],
) -> Result<(), Refusal>
    ensures answers { result ≡ answered (fade_fits (length input.now) p.ins (length gains.now) len size (length out.old) p.outs) (N.are_samples input.now && N.are_gains gains.now) }
    ensures leaves { out.new ≡ left (fade_fits (length input.now) p.ins (length gains.now) len size (length out.old) p.outs) (N.are_samples input.now && N.are_gains gains.now) (block_of p.outs size (faded_of_by N.times N.past N.no_gain input.now p.ins gains.now len p.position size)) out.old }
{
    let len = len as usize;
    if !fade_fits(input.len(), gains.len(), len, size, p, out.len()) {
        return Err(Refusal::LentBlock);
    }
    if !N::every_sample(input) || !N::every_gain(gains) {
        return Err(Refusal::OutOfRange);
    }
    let ahead = &gains[len.min(p.position as usize)..len];
    for c in 0..p.outs {
        let from = c.min(p.ins - 1) * size;
        let to = c * size;
        fade_channel::<N>(&input[from..from + size], ahead, &mut out[to..to + size]);
    }
    Ok(())
}

fn add_channel<N: Numbers>(source: &[N::Sample], out: &mut [N::Sample])
    requires { length source.now ≡ length out.old }
    ensures { out.new ≡ each (length out.old) (λ i. N.plus (slice_index_or out.old i N.past) (slice_index_or source.now i N.past)) }
{
    for (i, y) in out.iter_mut().enumerate() {
        *y = N::plus(*y, source[i]);
    }
}

// A loop, since `fill` asks for a clone that cannot fail, and of a type parameter `Copy` does not say so (tried: its `requires` stays open).
fn clear<N: Numbers>(out: &mut [N::Sample])
    ensures { out.new ≡ each (length out.old) (λ i. N.silence) }
{
    for y in out.iter_mut() {
        *y = N::silence();
    }
}

// Channel c of the sum: silence, and then input by input its channel c modulo its count. An input's block is found by where those before it end.
fn sum_channel<N: Numbers>(
    inputs: &[N::Sample],
    counts: &[usize],
    size: usize,
    c: usize,
    out: &mut [N::Sample],
)
    requires { T (every_is_channels counts.now) × (length inputs.now ≡ channels counts.now * size) × (length out.old ≡ size) }
    ensures { out.new ≡ each size (λ i. summed_by N.plus N.past N.silence size c i inputs.now counts.now) }
{
    clear::<N>(out);
    let mut at: usize = 0;
    for n in counts {
        let from = at + c % *n * size;
        add_channel::<N>(&inputs[from..from + size], out);
        at += *n * size;
    }
}

// The sum of a bus for one block of size samples.
pub fn sum<N: Numbers>(
    inputs: &[N::Sample],
    counts: &[usize],
    size: usize,
    out: &mut [N::Sample],
    outs: usize,
) -> Result<(), Refusal>
    ensures answers { result ≡ answered (sum_fits (length inputs.now) counts.now size (length out.old) outs) (N.are_samples inputs.now) }
    ensures leaves { out.new ≡ left (sum_fits (length inputs.now) counts.now size (length out.old) outs) (N.are_samples inputs.now) (block_of outs size (λ c i. summed_by N.plus N.past N.silence size c i inputs.now counts.now)) out.old }
{
    if !sum_fits(inputs.len(), counts, size, out.len(), outs) {
        return Err(Refusal::LentBlock);
    }
    if !N::every_sample(inputs) {
        return Err(Refusal::OutOfRange);
    }
    for c in 0..outs {
        let to = c * size;
        sum_channel::<N>(inputs, counts, size, c, &mut out[to..to + size]);
    }
    Ok(())
}
