// The arithmetic of one voice's sound on its way to a bus: the sample rate that the store accepts, the length of a stolen
// voice's fade, the fade's output, the sum of a bus, and the seed of a node's noise. Blocks are lent; nothing is kept.
#![tactic(auto)]

ghost use Rattle.std.specs.Prelude.{◌≡◌, ◌*◌, ◌==◌, cond, Some, None};
ghost use Rattle.node.specs.Refusal.{says};
ghost use Rattle.bus.specs.Rate.{rate_of};
ghost use Rattle.bus.specs.Block.{is_channels, holds};
ghost use Rattle.bus.specs.Fade.{fade_length, fade_fits, fade_answer, fade_output};
ghost use Rattle.bus.specs.Sum.{channels, every_is_channels, sum_fits, sum_answer, sum_output};
ghost use Rattle.bus.specs.Noise.{wrap, seed_of};

pub mod mix;

use mix::Floats;
use node::refusal::Refusal;

pub fn sample_rate(x: f32) -> Result<u32, Refusal>
    ensures { says result ≡ rate_of x }
{
    // The first two tests are what cutting off the fraction asks, for which no `TryFrom` is there. A NaN passes neither.
    if x > -1.0 && x < 18446744073709551616.0 {
        let n = std::num::truncating_f32_to_u64(x);
        if (1..=384000).contains(&n) {
            let rate = n as u32;
            // Floats of the same bits are one value. That `==` says as much of these two would have to be shown, since it is true of 0 and -0 too.
            if f32::to_bits(rate as f32) == f32::to_bits(x) {
                return Ok(rate);
            }
        }
    }
    Err(Refusal::SampleRate)
}

pub fn fade_length(rate: u32) -> u32
    ensures { result ≡ fade_length rate }
{
    let len = ((u64::from(rate) + 100) / 200) as u32;
    len.max(1)
}

// The low 32 bits of `node` are a remainder: `as` takes no number that does not fit.
pub fn derive_noise_seed(sequence: u32, node: usize) -> u32
    ensures { result ≡ seed_of sequence node }
{
    let low = (node % 0x1_0000_0000) as u32;
    0xDEAD_BEEF ^ sequence.wrapping_mul(0x9E37_79B9) ^ low.wrapping_mul(0x85EB_CA77)
}

fn is_channels(n: usize) -> bool
    ensures { result ≡ is_channels n }
{
    (1..=2).contains(&n)
}

// Whether len is n × size, which may not fit.
fn is_product(len: usize, n: usize, size: usize) -> bool
    ensures { result ≡ (len == n * size) }
{
    n.checked_mul(size) == Some(len)
}

// Whether a lent block of len samples is channels × block.
fn holds_block(len: usize, channels: usize, size: usize) -> bool
    ensures { result ≡ holds len channels size }
{
    is_channels(channels) && is_product(len, channels, size)
}

// One block of a fade: the channel counts of input and output, and what the fade's earlier blocks have passed, in samples.
#[derive(Clone, Copy)]
pub struct FadePart {
    pub ins: usize,
    pub outs: usize,
    pub position: u64,
}

// Whether a fade's blocks and gains are of the sizes asked for. What is lent is a parameter each: a signature shows what a call may touch. Its sizes are
// no struct either, here and in a sum: the store's calls take the block's size, and a fade's length, out of their config, and whoever asks gives the
// channel counts.
pub fn fade_fits(
    input: usize,
    gains: usize,
    len: usize,
    size: usize,
    p: FadePart,
    out: usize,
) -> bool
    ensures { result ≡ fade_fits input p.ins gains len size out p.outs }
{
    holds_block(input, p.ins, size) && holds_block(out, p.outs, size) && len <= gains
}

// The form in floats of `mix::fade`: its clauses are the scope's, which name no sort of numbers. So it is with `bus_sum`.
//
// A fade's output for one block of size samples, where len is the fade's length L. The gains are those of samples 0 to L - 1.
pub fn fade_output(
    input: &[f32],
    gains: &[f32],
    len: u32,
    size: usize,
    p: FadePart,
    out: &mut [f32],
) -> Result<(), Refusal>
    ensures answers { says result ≡ fade_answer input.now p.ins gains.now len size out.old p.outs }
    ensures leaves { out.new ≡ fade_output input.now p.ins gains.now len p.position size out.old p.outs }
{
    mix::fade::<Floats>(input, gains, len, size, p, out)
}

// How many channels the inputs have together, where each has one or two. One walk tests and adds: `all` and then `sum` are two, and `sum` asks
// to be shown that the total fits.
fn total_channels(counts: &[usize]) -> Option<usize>
    ensures { result ≡ cond (every_is_channels counts.now) (Some (channels counts.now)) None }
{
    let mut total = 0;
    for n in counts {
        if !is_channels(*n) {
            return None;
        }
        total += *n;
    }
    Some(total)
}

// The same of the sum of a bus.
pub fn sum_fits(inputs: usize, counts: &[usize], size: usize, out: usize, outs: usize) -> bool
    ensures { result ≡ sum_fits inputs counts.now size out outs }
{
    if counts.len() > 64 {
        return false;
    }
    total_channels(counts).is_some_and(|n| is_product(inputs, n, size)
        && holds_block(out, outs, size))
}

// The sum of a bus for one block of size samples. The inputs' blocks stand one after the other in inputs, and counts has the channel count of each; outs is
// the output's.
pub fn bus_sum(
    inputs: &[f32],
    counts: &[usize],
    size: usize,
    out: &mut [f32],
    outs: usize,
) -> Result<(), Refusal>
    ensures answers { says result ≡ sum_answer inputs.now counts.now size out.old outs }
    ensures leaves { out.new ≡ sum_output inputs.now counts.now size out.old outs }
{
    mix::sum::<Floats>(inputs, counts, size, out, outs)
}
