// The fade of a stolen voice and the sum of a bus on whole numbers, for converters that take samples from -2^23 to 2^23 - 1. Blocks are lent; nothing is kept.
#![tactic(auto)]

ghost use Rattle.std.specs.Prelude.{◌≡◌, ℕ, Bool, ◌*◌, ◌<◌, ◌≤◌, T, length, pos, ◌-ℤ◌, nat_eq, nat_lt, slice_index, slice_index_or};
ghost use Rattle.std.specs.Int.{w32, int_wrapping_add};
ghost use Rattle.bus.specs.Block.{each};
ghost use Rattle.bus.specs.Sum.{most_inputs};
ghost use Rattle.whole_bus.specs.Sample.{is_sample, is_gain, faded_sample, clipped};
ghost use Rattle.whole_bus.specs.Raised.{above_lowest, Added, AddedTwo, AddedAll, SummedBlocks};
ghost use Rattle.whole_bus.specs.Block.{every, answer_of, fade_refusal, fade_output, sum_refusal, sum_output};
ghost use Rattle.whole_bus.proofs.Ranges.{every_at};

use bus::mix::{Numbers, fade, sum};
use bus::{FadePart, sum_fits};
use node::refusal::Refusal;

// Whole numbers: a product is the nearest whole number to the exact one. Sums wrap, and are exact where at most 64 samples are added up.
struct Wholes;

impl Numbers for Wholes {
    type Sample = i32;

    type Gain = u32;

    ghost past = { pos 0 };

    ghost silence = { pos 0 };

    ghost no_gain = { 0 };

    ghost times = { faded_sample };

    ghost plus = { int_wrapping_add w32 };

    ghost Multiplies = { λ x g. T (is_sample x) × T (is_gain g) };

    ghost are_samples = { every is_sample };

    ghost are_gains = { every is_gain };

    ghost in_range = { λ xs gains t u i j. (every_at is_sample xs (pos 0) tt t i, every_at is_gain gains 0 tt u j) };

    fn silence() -> i32 {
        0
    }

    fn no_gain() -> u32 {
        0
    }

    // The sample is raised by 2^24, so that the product is a number without a sign, which machines multiply in groups; that adds the gain to the quotient, and
    // it is taken off again. Half a step is added to the product, and the division rounds down.
    fn times(x: i32, gain: u32) -> i32 {
        let raised = (x + 16777216) as u32;
        let quotient = (u64::from(raised) * u64::from(gain) + 8388608) / 16777216;
        quotient as i32 - gain as i32
    }

    fn plus(x: i32, y: i32) -> i32 {
        x.wrapping_add(y)
    }

    fn every_sample(xs: &[i32]) -> bool {
        all_low(xs, above_lowest)
    }

    fn every_gain(gains: &[u32]) -> bool {
        all_low(gains, below_full)
    }
}

// How far x lies above the lowest sample, modulo 2^32: that is below 2^24 for a sample, and for no other number.
fn above_lowest(x: i32) -> u32
    ensures value { result ≡ above_lowest x }
    ensures tells { nat_lt result 16777216 ≡ is_sample x }
{
    x.cast_unsigned().wrapping_add(8388608)
}

// Below 2^24 for a gain, and for no other number: the full gain, 2^24, becomes one less.
fn below_full(g: u32) -> u32
    ensures { nat_lt result 16777216 ≡ is_gain g }
{
    g - g / 16777216
}

// Whether `low` gives less than 2^24 for each of the numbers. No `all`: a loop that leaves at the first bad number took three to five times as long.
// The bits of what it gives are collected, and one test at the end says whether any was out of range: no branch stands in the loop.
fn all_low<A: Copy, F: Fn(A) -> u32>(xs: &[A], low: F) -> bool
    requires { F.IsAlwaysCallable low }
    ensures { (test : A → Bool) → ((x : A) (r : ℕ) → F.post low x r → nat_lt r 16777216 ≡ test x) → result ≡ every test xs.now }
{
    let mut bits = 0;
    for x in xs {
        bits |= low(*x);
    }
    bits < 16777216
}

// The form in whole numbers of `mix::fade`: its clauses are the scope's, which name no sort of numbers. `bus_sum` tests and adds in one pass where it can.
//
// A fade's output for one block of size samples, where len is the fade's length L. The gains are those of samples 0 to L - 1, from 0 to 2^24.
pub fn fade_output(
    input: &[i32],
    gains: &[u32],
    len: u32,
    size: usize,
    p: FadePart,
    out: &mut [i32],
) -> Result<(), Refusal>
    ensures answers { result ≡ answer_of (fade_refusal input.now p.ins gains.now len size (length out.old) p.outs) }
    ensures leaves { out.new ≡ fade_output input.now p.ins gains.now len p.position size out.old p.outs }
{
    fade::<Wholes>(input, gains, len, size, p, out)
}

fn clip(x: i32) -> i32
    ensures { result ≡ clipped x }
{
    x.clamp(-8388608, 8388607)
}

fn clip_all(out: &mut [i32])
    ensures { out.new ≡ each (length out.old) (λ i. clipped (slice_index_or out.old i (pos 0))) }
{
    for y in out.iter_mut() {
        *y = clip(*y);
    }
}

// The loops over two slices take both by one index, and so ask that both have as many samples, and so does what calls them. `iter_mut().zip(a)` would not
// (tried in each of the three: `returns` stays open, since after such a loop nothing is known of what it wrote).

// A block is added to sums of raised samples, and the bits of its samples are collected. One pass does both, so that each sample is read once. The sums wrap, and
// mean something only where all are samples.
fn add_block(a: &[i32], sums: &mut [u32]) -> u32
    requires { length a.now ≡ length sums.old }
    ensures { Added a.now sums.old sums.new result }
{
    let mut bits = 0;
    for (i, sum) in sums.iter_mut().enumerate() {
        let x = above_lowest(a[i]);
        bits |= x;
        *sum = sum.wrapping_add(x);
    }
    bits
}

// Two blocks in one pass, so that each sum is read and written half as often. With one block in each pass the sum took longer than the one in floats,
// which its goal forbids (docs/CHANGES.md).
fn add_two(a: &[i32], b: &[i32], sums: &mut [u32]) -> u32
    requires { (length a.now ≡ length sums.old) × (length b.now ≡ length sums.old) }
    ensures { AddedTwo a.now b.now sums.old sums.new result }
{
    let mut first = 0;
    let mut second = 0;
    for (i, sum) in sums.iter_mut().enumerate() {
        let x = above_lowest(a[i]);
        let y = above_lowest(b[i]);
        first |= x;
        second |= y;
        *sum = sum.wrapping_add(x).wrapping_add(y);
    }
    first | second
}

// n blocks, which stand one after the other, here, in `sum_through` and in `sum_even`: a number and not a length, since a block may have no
// samples. sums are 0 before. Two blocks go at a time, and the last alone; the inputs are not cut by `chunks_exact`, which takes no blocks of no samples.
fn add_ports(inputs: &[i32], n: usize, sums: &mut [u32]) -> u32
    requires { (length inputs.now ≡ n * length sums.old) × ((j : ℕ) → slice_index sums.old j ≡ 0) }
    ensures { AddedAll inputs.now n sums.old sums.new result }
{
    let size = sums.len();
    let mut bits: u32 = 0;
    let mut at: usize = 0;
    for _ in 0..n / 2 {
        let next = at + size;
        let end = next + size;
        let more = add_two(&inputs[at..next], &inputs[next..end], sums);
        bits |= more;
        at = end;
    }
    if n % 2 == 1 {
        let end = at + size;
        let more = add_block(&inputs[at..end], sums);
        return bits | more;
    }
    bits
}

// The sums less what their samples were raised by, clipped once.
fn clip_sums(sums: &[u32], raised: u32, out: &mut [i32])
    requires { (length sums.now ≡ length out.old) × ((j : ℕ) → slice_index sums.now j < 2147483648) × (raised < 2147483648) }
    ensures { out.new ≡ each (length out.old) (λ j. clipped (pos (slice_index sums.now j) -ℤ pos raised)) }
{
    for (i, y) in out.iter_mut().enumerate() {
        *y = clip(sums[i] as i32 - raised as i32);
    }
}

// n blocks, one after the other, are added up in sums, and out is written only if all are samples.
fn sum_through(inputs: &[i32], n: usize, sums: &mut [u32], out: &mut [i32]) -> bool
    requires { (length inputs.now ≡ n * length out.old) × (length sums.old ≡ length out.old) × ((j : ℕ) → slice_index sums.old j ≡ 0) × (n ≤ most_inputs) }
    ensures { SummedBlocks inputs.now n out.old out.new result }
{
    if add_ports(inputs, n, sums) < 16777216 {
        clip_sums(sums, (n * 8388608) as u32, out);
        return true;
    }
    false
}

// Where every port has as many channels as the bus, each is one block. The sums stand beside the output until all is read: an output of a store's call has at
// most 256 samples.
fn sum_even(inputs: &[i32], n: usize, out: &mut [i32]) -> bool
    requires { (length inputs.now ≡ n * length out.old) × (length out.old ≤ 256) × (n ≤ most_inputs) }
    ensures { SummedBlocks inputs.now n out.old out.new result }
{
    let size = out.len();
    let mut sums = [0u32; 256];
    sum_through(inputs, n, &mut sums[0..size], out)
}

fn every_is(counts: &[usize], n: usize) -> bool
    ensures { result ≡ every (λ m. nat_eq m n) counts.now }
{
    counts.iter().all(|m| *m == n)
}

// The sum of a bus for one block of size samples. The inputs' blocks stand one after the other in inputs, and counts has the channel count of each; outs is
// the output's.
pub fn bus_sum(
    inputs: &[i32],
    counts: &[usize],
    size: usize,
    out: &mut [i32],
    outs: usize,
) -> Result<(), Refusal>
    ensures answers { result ≡ answer_of (sum_refusal inputs.now counts.now size (length out.old) outs) }
    ensures leaves { out.new ≡ sum_output inputs.now counts.now size out.old outs }
{
    // Where a port has another count than the bus, the samples are tested first, and then read again. More counts than a bus has ports are
    // refused before anybody walks them.
    if counts.len() > 64 || out.len() > 256 || !every_is(counts, outs) {
        sum::<Wholes>(inputs, counts, size, out, outs)?;
        clip_all(out);
        return Ok(());
    }
    if !sum_fits(inputs.len(), counts, size, out.len(), outs) {
        return Err(Refusal::LentBlock);
    }
    if !sum_even(inputs, counts.len(), out) {
        return Err(Refusal::OutOfRange);
    }
    Ok(())
}
